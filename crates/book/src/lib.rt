// A book of lookups in u16 words: its types and definitions, and where a lookup's parts stand.
// The words are walked once, by `book_index::index_of`. `find_in` is then one look into the table of starts, and a few words of the lookup:
// its head, and for a chain its four numbers.
#![tactic(auto)]

ghost use Rattle.std.specs.Prelude.{◌≡◌, ◌≤◌, length};
ghost use Rattle.book.specs.Book.{most_side};
ghost use Rattle.book.specs.Places.{counted_at, one_at, many_at, chain_at, kind_at, entry_at, is_chain, size_at, found_in, widened};

pub const LOOKUPS: usize = 256;

pub const IDS: usize = 8;

pub const INPUT: usize = 63;

pub const SIDE: usize = 64;

pub const RECORDS: usize = 16;

// A part of the book's words, `words[from..to]`. Two places and no slice: a slice would be part of an entry, so that what a lookup is would be said
// of lent words, where the definitions say it of numbers.
#[derive(Clone, Copy, Debug, PartialEq, Eq)]
pub struct Part {
    pub from: usize,
    pub to: usize,
}

// Where a chain's parts stand.
#[derive(Clone, Copy, Debug, PartialEq, Eq)]
pub struct ChainParts {
    pub first: u32,
    pub backtrack: Part,
    pub input: Part,
    pub lookahead: Part,
    pub records: Part,
}

// A lookup and where its parts stand.
#[derive(Clone, Copy, Debug, PartialEq, Eq)]
pub enum Entry {
    One { props: u32, from: u32, to: u32 },
    Many { props: u32, from: u32, ids: Part },
    Chain { props: u32, parts: ChainParts },
}

// Where each lookup of a book that reads begins; unused slots are 0. An array with a count, since the library has no heap.
#[derive(Clone, Copy, Debug, PartialEq, Eq)]
pub struct Index {
    pub count: usize,
    pub starts: [u16; LOOKUPS],
}

// Lookup k of an indexed book, for a caller that lends the index's table rather than copying it.
#[tactic(auto, using(std::proofs::lemmas::Bool::Decides::nat_tests), unfolding(crate::specs::Places::found_in))]
pub fn find_in(words: &[u16], starts: &[u16; LOOKUPS], count: usize, k: usize) -> Option<Entry>
    ensures { result ≡ found_in words.now starts.now count k }
{
    if count <= k {
        return None;
    }
    entry_at(words, *starts.get(k)? as usize)
}

// How many words the lookup that begins at `at` takes, where one does.
#[tactic(auto, unfolding(crate::specs::Places::size_at))]
pub fn size_at(words: &[u16], at: usize) -> Option<usize>
    ensures { result ≡ size_at words.now at }
{
    entry_at(words, at)?;
    Some(4 + words[at + 3] as usize)
}

// Whether a lookup applies records where it matches, and doesn't act by itself. One that the book doesn't have is none.
pub fn is_chain(e: Option<Entry>) -> bool
    ensures { result ≡ is_chain e }
{
    matches!(e, Some(Entry::Chain { .. }))
}

// The lookup that begins at `at`. It and `kind_at` stand where they are called: where a book is only divided, no entry is then put together.
#[inline(always)]
#[tactic(auto, using(std::proofs::lemmas::Bool::Decides::nat_tests), unfolding(crate::specs::Places::entry_at))]
fn entry_at(words: &[u16], at: usize) -> Option<Entry>
    ensures { result ≡ entry_at words.now at }
{
    let &[kind, low, high, size, ..] = words.get(at..)? else {
        return None;
    };
    let a = at + 4;
    let props = low as u32 + 65536 * (high as u32);
    kind_at(words.get(..a + size as usize)?, kind, props, a)
}

// The lookup of a kind whose body begins at `a` and ends where the words end. The kinds' numbers are the book's own format.
#[inline(always)]
#[tactic(auto, using(std::proofs::lemmas::Bool::Decides::nat_tests), unfolding(crate::specs::Places::kind_at))]
fn kind_at(words: &[u16], kind: u16, props: u32, a: usize) -> Option<Entry>
    ensures { result ≡ kind_at words.now kind props a }
{
    match kind {
        1 => one_at(words, props, a),
        2 => many_at(words, props, a),
        3 => chain_at(words, props, a),
        _ => None,
    }
}

#[tactic(auto, using(std::proofs::lemmas::Bool::Decides::nat_tests), unfolding(crate::specs::Places::one_at))]
fn one_at(words: &[u16], props: u32, a: usize) -> Option<Entry>
    ensures { result ≡ one_at words.now props a }
{
    let &[from, to] = words.get(a..)? else {
        return None;
    };
    Some(Entry::One {
        props,
        from: from as u32,
        to: to as u32,
    })
}

#[tactic(auto, using(std::proofs::lemmas::Bool::Decides::nat_tests), unfolding(crate::specs::Places::many_at))]
fn many_at(words: &[u16], props: u32, a: usize) -> Option<Entry>
    ensures { result ≡ many_at words.now props a }
{
    let from = *words.get(a)? as u32;
    let ids = counted_at(words, a + 1, 1, IDS)?;
    if ids.to < words.len() {
        return None;
    }
    Some(Entry::Many { props, from, ids })
}

#[tactic(auto, using(std::proofs::lemmas::Bool::Decides::nat_tests), unfolding(crate::specs::Places::chain_at))]
fn chain_at(words: &[u16], props: u32, a: usize) -> Option<Entry>
    ensures { result ≡ chain_at words.now props a }
{
    let first = *words.get(a)? as u32;
    let backtrack = counted_at(words, a + 1, 1, SIDE)?;
    let input = counted_at(words, backtrack.to, 1, INPUT)?;
    let lookahead = counted_at(words, input.to, 1, SIDE)?;
    let records = counted_at(words, lookahead.to, 2, RECORDS)?;
    if records.to < words.len() {
        return None;
    }
    Some(Entry::Chain {
        props,
        parts: ChainParts {
            first,
            backtrack,
            input,
            lookahead,
            records,
        },
    })
}

// The entries after their number, which stands at x: at most `most`, of `each` words.
#[tactic(auto, using(std::proofs::lemmas::Bool::Decides::nat_tests), unfolding(crate::specs::Places::counted_at))]
fn counted_at(words: &[u16], x: usize, each: usize, most: usize) -> Option<Part>
    requires { each ≤ 2 }
    ensures { result ≡ counted_at words.now x each most }
{
    let n = *words.get(x)? as usize;
    let from = x + 1;
    let size = each * n;
    if most < n || words.len() - from < size {
        return None;
    }
    Some(Part {
        from,
        to: from + size,
    })
}

// The values of a part, widened for a matcher; unused slots are 0.
#[tactic(auto, using(crate::specs::Widened::widened_is))]
pub fn widen(values: &[u16]) -> [u32; SIDE]
    requires { length values.now ≤ most_side }
    ensures { result ≡ widened values.now }
{
    let mut out = [0u32; SIDE];
    for (k, value) in values.iter().enumerate() {
        out[k] = *value as u32;
    }
    out
}
