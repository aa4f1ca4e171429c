// A book read once, from its first word to its last, into a table of where its lookups begin.
#![tactic(auto)]

ghost use Rattle.std.specs.Prelude.{◌≡◌};
ghost use Rattle.book.specs.Book.{read_book, is_read};
ghost use Rattle.book.specs.Places.{index_of};

use book::{Index, LOOKUPS};

pub const BOOK_WORDS: usize = 4096;

// Whether a book reads: where it doesn't, refusal 11.
#[tactic(auto, using(book::specs::Starts::index_reads))]
pub fn reads(words: &[u16]) -> bool
    ensures { result ≡ is_read (read_book words.now) }
{
    index_of(words).is_some()
}

// The book read once, from its first word to its last; none where it doesn't read. The loop goes by the lookups' sizes and counts no places.
pub fn index_of(words: &[u16]) -> Option<Index>
    ensures { result ≡ index_of words.now }
{
    if BOOK_WORDS < words.len() {
        return None;
    }
    let mut starts = [0u16; LOOKUPS];
    let mut count = 0;
    let mut at = 0;
    while at < words.len() {
        if count == LOOKUPS {
            return None;
        }
        let size = book::size_at(words, at)?;
        starts[count] = at as u16;
        count += 1;
        at += size;
    }
    Some(Index { count, starts })
}
