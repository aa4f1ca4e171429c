// The bench cards that are run and not shown from the definitions. Each line is a card, what was asked, and the answer's number and values.
#![tactic(auto)]

use matching::{InputMatch, NoMatch, Success, Terms};
use std::io;
use verdict::{Settings, Table, Test};

// The words of two glyphs.
const ROW: usize = 2 * glyph::WORDS;

// A card that standard output doesn't take is lost, and the next is tried all the same: the status stays 0, and standard error says nothing.
fn main(rt: HostRuntime) {
    let row = two();
    let seven = [7u32; 64];
    let _ = say(&rt, "K15, no values:", on(&row, &[]));
    let _ = say(&rt, "K15, 63 values:", on(&row, &seven[..63]));
    let _ = say(&rt, "K15, 64 values:", on(&row, &seven));
}

// Glyphs 5 and 7, of mask 1 and one component each; every other word is 0.
fn two() -> [u32; ROW] {
    let mut row = [0; ROW];
    row[0] = 5;
    row[1] = 1;
    row[3] = 257;
    row[glyph::WORDS] = 7;
    row[glyph::WORDS + 1] = 1;
    row[glyph::WORDS + 3] = 257;
    row
}

// GSUB, settings off, mask 1, the cursor at 0, nothing done.
fn on(row: &[u32], values: &[u32]) -> InputMatch {
    let lookup = Terms {
        settings: Settings {
            table: Table::Gsub,
            zwnj: false,
            zwj: false,
            syllables: false,
        },
        mask: 1,
        props: 0,
    };
    matching_calls::match_input(
        &[],
        0,
        row,
        row.len() / glyph::WORDS,
        0,
        lookup,
        &[],
        Test::Equal,
        values,
    )
}

fn say(rt: &impl Print, card: &str, m: InputMatch) -> io::Result<()> {
    match m.answer {
        Ok(Success { end, total }) => println!(rt;
            "{card} 0 end {end} total {total} positions {}",
            m.count
        ),
        Err(NoMatch::Refused(why)) => println!(rt; "{card} {}", u8::from(why)),
        Err(NoMatch::Lost(extent)) => println!(rt; "{card} 4 extent {extent}"),
        Err(NoMatch::Ligature) => println!(rt; "{card} 5"),
    }
}
