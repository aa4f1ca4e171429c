// A chain of a book at the cursor of a text in two rows: its values matched in the rows, and the level that a match opens.
#![tactic(auto)]

ghost use Rattle.std.specs.Prelude.{◌≡◌, map, ◌≤◌, ◌<◌, length};
ghost use Rattle.glyph.specs.Glyph.{limit, glyphs_of};
ghost use Rattle.text.specs.Text.{text_of, Fits};
ghost use Rattle.verdict.specs.Verdict.{value_by};
ghost use Rattle.matching.specs.Matchers.{input_on, ahead_on, back_on};
ghost use Rattle.matching.specs.Answers.{input_told};
ghost use Rattle.book.specs.Inside.{GoodChain, FoundInside};
ghost use Rattle.run.specs.Chain.{asks, is_taken, itself, chain_match};
ghost use Rattle.run_chain_match.specs.Aim.{aim_at, handed_chain, aimed_at};

use book::{ChainParts, Entry, Part};
use matching::{InputMatch, Terms};
use run::Given;
use run_positions::Slots;
use text::Place;
use verdict::{Settings, Sign, Table, Test};

// A chain that matched: its level and its records.
#[derive(Clone, Copy, Debug, PartialEq, Eq)]
pub struct Aim {
    pub level: Slots,
    pub records: Part,
}

// How the values of each part of a chain are tested; the first glyph's value is tested as the input's are.
#[derive(Clone, Copy, Debug, PartialEq, Eq)]
pub struct Tests {
    pub backtrack: Test,
    pub input: Test,
    pub lookahead: Test,
}

// Kind 3: each value is an id.
const BY_ID: Tests = Tests {
    backtrack: Test::Equal,
    input: Test::Equal,
    lookahead: Test::Equal,
};

// What a chain with these props asks of the glyphs: the run's switches and mask, under GSUB.
fn ask(given: Given, props: u32) -> Terms
    ensures { result ≡ asks given props }
{
    Terms {
        settings: Settings {
            table: Table::Gsub,
            zwnj: given.zwnj,
            zwj: given.zwj,
            syllables: given.syllables,
        },
        mask: given.mask,
        props,
    }
}

// What the values of a chain are matched by: its terms, the run's mark sets, and the book that they stand in.
#[derive(Clone, Copy)]
struct Search<'a> {
    terms: Terms,
    sets: &'a [u16],
    book: &'a [u16],
}

impl Search<'_> {
    // Input values of the book against the glyphs after the cursor.
    fn match_values(
        self,
        before: &[u32],
        coming: &[u32],
        idx: usize,
        test: Test,
        values: &[u16],
    ) -> InputMatch
        requires { (idx < length (glyphs_of coming.now)) × (length (glyphs_of coming.now) ≤ limit) × (length values.now ≤ 63) }
        ensures { let s = self.entry in result ≡ input_told (glyphs_of coming.now) idx
            (input_on s.terms s.sets.now itself (glyphs_of before.now) (glyphs_of coming.now) idx
            (map (value_by test s.book.now) values.now)) }
    {
        let wide = &book::widen(values)[..values.len()];
        matching::input(
            before, coming, idx, self.terms, self.sets, test, self.book, wide,
        )
    }

    // Whether lookahead values of the book are there from a start on. A function beside `is_behind`, since each calls another matcher with another
    // contract: one over a closure would say both again.
    fn is_ahead(
        self,
        coming: &[u32],
        start: usize,
        syllable: u8,
        test: Test,
        values: &[u16],
    ) -> bool
        requires { (start ≤ length (glyphs_of coming.now)) × (length values.now ≤ 64) }
        ensures { let s = self.entry in result ≡ is_taken (ahead_on s.terms s.sets.now itself (glyphs_of coming.now) start syllable
            (map (value_by test s.book.now) values.now)) }
    {
        if values.is_empty() {
            return true;
        }
        let wide = &book::widen(values)[..values.len()];
        matching_context::lookahead(
            coming, start, syllable, self.terms, self.sets, test, self.book, wide,
        )
        .is_ok()
    }

    // Whether backtrack values of the book are there before the cursor.
    fn is_behind(self, before: &[u32], syllable: u8, test: Test, values: &[u16]) -> bool
        requires { length values.now ≤ 64 }
        ensures { let s = self.entry in result ≡ is_taken (back_on s.terms s.sets.now itself (glyphs_of before.now) syllable
            (map (value_by test s.book.now) values.now)) }
    {
        if values.is_empty() {
            return true;
        }
        let wide = &book::widen(values)[..values.len()];
        matching_context::backtrack(
            before, syllable, self.terms, self.sets, test, self.book, wide,
        )
        .is_ok()
    }

    // A chain at the cursor: first glyph, input, lookahead, backtrack.
    fn match_chain(
        self,
        done: &[u32],
        coming: &[u32],
        p: Place,
        tests: Tests,
        chain: ChainParts,
    ) -> Option<Aim>
        requires { Fits done.now coming.now p × (p.idx < limit) × GoodChain (length self.book.now) chain }
        ensures { let s = self.entry in result ≡ aim_at chain.records
            (chain_match s.terms s.sets.now (text_of done.now coming.now p) (handed_chain tests s.book.now chain)) }
    {
        let Place { d, idx } = p;
        let book = self.book;
        let g = glyph::read(coming, idx);
        let test = tests.input;
        let first = chain.first;
        if !verdict_match::is_value(Sign { test, value: first }, book, g) {
            return None;
        }
        let before = glyph::first(done, d);
        let input = &book[chain.input.from..chain.input.to];
        let m = self.match_values(before, coming, idx, test, input);
        let Ok(success) = m.answer else {
            return None;
        };
        let end = success.end;
        let onward = &book[chain.lookahead.from..chain.lookahead.to];
        if !self.is_ahead(coming, end, g.syllable, tests.lookahead, onward) {
            return None;
        }
        let back = &book[chain.backtrack.from..chain.backtrack.to];
        if !self.is_behind(before, g.syllable, tests.backtrack, back) {
            return None;
        }
        let level = run_positions::open(&m.positions, m.count, end, idx, d);
        Some(Aim {
            level,
            records: chain.records,
        })
    }
}

// The chain of an entry at the cursor; any other entry is none, and so is a lookup that the book doesn't have.
#[tactic(auto, using(crate::specs::Laws::aim_chain))]
pub fn take_aim(
    done: &[u32],
    coming: &[u32],
    book: &[u16],
    sets: &[u16],
    e: Option<Entry>,
    p: Place,
    given: Given,
) -> Option<Aim>
    requires { Fits done.now coming.now p × (p.idx < limit) × FoundInside (length book.now) e }
    ensures { result ≡ aimed_at given sets.now book.now e (text_of done.now coming.now p) }
{
    let Some(Entry::Chain { props, parts }) = e else {
        return None;
    };
    let terms = ask(given, props);
    Search { terms, sets, book }.match_chain(done, coming, p, BY_ID, parts)
}
