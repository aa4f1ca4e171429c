// What a lookup asks of the glyphs that it walks over, and what is answered of one: the types, their definitions, and the two matchers.
#![tactic(auto)]

ghost use Rattle.std.specs.Prelude.{◌≡◌};
ghost use Rattle.verdict.specs.Matcher.{matcher_of};
ghost use Rattle.verdict.specs.Numbers.{table_of, test_of};

// The layout table that a lookup is of.
#[derive(Clone, Copy, Debug, PartialEq, Eq)]
pub enum Table {
    Gsub,
    Gpos,
}

// The table, and what is asked for: auto-ZWNJ, auto-ZWJ, syllables. Each flag stands for itself; none says whether another field counts.
#[derive(Clone, Copy, Debug, PartialEq, Eq)]
pub struct Settings {
    pub table: Table,
    pub zwnj: bool,
    pub zwj: bool,
    pub syllables: bool,
}

// What a lookup asks of the glyphs that it walks over: its props and mask, which of ZWNJ, ZWJ and hidden glyphs are
// ignored, and whether syllables are tested: flags that stand for themselves too.
#[derive(Clone, Copy, Debug, PartialEq, Eq)]
pub struct Matcher {
    pub props: u32,
    pub mask: u32,
    pub zwnj: bool,
    pub zwj: bool,
    pub hidden: bool,
    pub syllabic: bool,
}

// The three answers; an answer's number is its place in its list. May skip and may match have the same cases and stay two types, as in the
// original, so that neither is taken for the other.
#[derive(Clone, Copy, Debug, PartialEq, Eq)]
pub enum MaySkip {
    No = 0,
    Yes = 1,
    Maybe = 2,
}

#[derive(Clone, Copy, Debug, PartialEq, Eq)]
pub enum MayMatch {
    No = 0,
    Yes = 1,
    Maybe = 2,
}

#[derive(Clone, Copy, Debug, PartialEq, Eq)]
pub enum Verdict {
    Match = 0,
    NotMatch = 1,
    Skip = 2,
}

// How a value is held against a glyph. Functions that take a test also take `lists`, words lent beside the values, for a test that needs more than
// the value; none of these does.
#[derive(Clone, Copy, Debug, PartialEq, Eq)]
pub enum Test {
    Equal,
    Any,
    Nothing,
}

// What a glyph is tested for.
#[derive(Clone, Copy, Debug, PartialEq, Eq)]
pub struct Sign {
    pub test: Test,
    pub value: u32,
}

// The context matcher or the input matcher of a lookup. `context` is C's word for which of the two; it chooses a value and no step, so there is
// nothing to hand in as a closure.
#[tactic(auto, unfolding(crate::specs::Matcher::matcher_of, crate::specs::Matcher::context_matcher, crate::specs::Matcher::input_matcher))]
pub fn matcher_of(settings: Settings, context: bool, mask: u32, props: u32) -> Matcher
    ensures { result ≡ matcher_of settings context mask props }
{
    let gpos = settings.table == Table::Gpos;
    if context {
        return Matcher {
            props: props,
            mask: 4294967295,
            zwnj: gpos | settings.zwnj,
            zwj: true,
            hidden: gpos,
            syllabic: !gpos & settings.syllables,
        };
    }
    Matcher {
        props: props,
        mask: mask,
        zwnj: gpos,
        zwj: settings.zwj,
        hidden: gpos,
        syllabic: !gpos & settings.syllables,
    }
}

// ---- a table and a test by their numbers, as C and the stored lists have them

impl From<bool> for Table {
    ghost from_gives = { λ gpos table. table ≡ table_of gpos };

    fn from(gpos: bool) -> Table {
        if gpos { Table::Gpos } else { Table::Gsub }
    }
}

impl From<u8> for Test {
    ghost from_gives = { λ number test. test ≡ test_of number };

    fn from(number: u8) -> Test {
        match number {
            0 => Test::Equal,
            1 => Test::Any,
            _ => Test::Nothing,
        }
    }
}
