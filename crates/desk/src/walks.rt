// The two questions, the verdict and the walks.
ghost use Rattle.std.specs.Prelude.{◌≡◌, [], MatchResult};
ghost use Rattle.verdict.specs.Verdict.{value_of};
ghost use Rattle.verdict_ask.specs.Ask.{ask_skip, ask_match, ask_verdict, skip_reply, match_reply, verdict_reply};
ghost use Rattle.walk.specs.Calls.{forward_of, backward_of};
ghost use Rattle.desk.specs.Walks.{settings_for, matcher_for, sign_of, said_of, step_of};

use glyph::IllShaped;
use verdict::{Matcher, Settings, Sign};
use walk::Walked;

// A lookup's table and settings, its mask and its props.
#[repr(C)]
#[derive(Clone, Copy)]
pub struct Lookup {
    pub gpos: bool,
    pub zwnj: bool,
    pub zwj: bool,
    pub syllables: bool,
    pub mask: u32,
    pub props: u32,
}

// What is sought: the kind of test (0 equal, 1 any, any other number none), its value, and the starting syllable.
#[repr(C)]
#[derive(Clone, Copy)]
pub struct Sought {
    pub test: u8,
    pub syllable: u8,
    pub value: u32,
}

// 0 with the answer's place in its list, or 1.
#[repr(C)]
#[derive(Clone, Copy)]
pub struct Said {
    pub number: u8,
    pub said: u8,
}

// 0 with the place found, 4 with the extent and whether no glyph was left, or 1.
#[repr(C)]
#[derive(Clone, Copy)]
pub struct Step {
    pub number: u8,
    pub ranout: bool,
    pub place: usize,
}

#[unsafe(no_mangle)]
pub extern "C" fn cb_may_skip(
    row: &[u32],
    place: usize,
    lookup: Lookup,
    context: bool,
    sets: &[u16],
) -> Said
    ensures { result ≡ said_of (skip_reply (ask_skip row.now place (matcher_for lookup context) sets.now)) }
{
    let answer = verdict_ask::ask_skip(row, place, matcher(lookup, context), sets);
    Said::from(answer.map(|s| s as u8))
}

#[unsafe(no_mangle)]
pub extern "C" fn cb_may_match(
    row: &[u32],
    place: usize,
    lookup: Lookup,
    context: bool,
    sought: Sought,
) -> Said
    ensures { result ≡ said_of (match_reply
        (ask_match row.now place (matcher_for lookup context) (value_of (sign_of sought) []) sought.syllable)) }
{
    let answer = verdict_ask::ask_match(
        row,
        place,
        matcher(lookup, context),
        sought.into(),
        sought.syllable,
    );
    Said::from(answer.map(|m| m as u8))
}

#[unsafe(no_mangle)]
pub extern "C" fn cb_verdict(
    row: &[u32],
    place: usize,
    lookup: Lookup,
    context: bool,
    sought: Sought,
    sets: &[u16],
) -> Said
    ensures { result ≡ said_of (verdict_reply
        (ask_verdict row.now place (matcher_for lookup context) (value_of (sign_of sought) []) sought.syllable sets.now)) }
{
    let answer = verdict_ask::ask_verdict(
        row,
        place,
        matcher(lookup, context),
        sought.into(),
        sought.syllable,
        sets,
    );
    Said::from(answer.map(|v| v as u8))
}

#[unsafe(no_mangle)]
pub extern "C" fn cb_forward(
    row: &[u32],
    len: usize,
    place: usize,
    lookup: Lookup,
    context: bool,
    sought: Sought,
    sets: &[u16],
) -> Step
    ensures { result ≡ step_of (forward_of row.now len place (matcher_for lookup context) (value_of (sign_of sought) []) sought.syllable
        sets.now) }
{
    Step::from(walk::forward(
        row,
        len,
        place,
        matcher(lookup, context),
        sought.into(),
        sought.syllable,
        sets,
    ))
}

#[unsafe(no_mangle)]
pub extern "C" fn cb_backward(
    row: &[u32],
    place: usize,
    lookup: Lookup,
    context: bool,
    sought: Sought,
    sets: &[u16],
) -> Step
    ensures { result ≡ step_of (backward_of row.now place (matcher_for lookup context) (value_of (sign_of sought) []) sought.syllable
        sets.now) }
{
    Step::from(walk::backward(
        row,
        place,
        matcher(lookup, context),
        sought.into(),
        sought.syllable,
        sets,
    ))
}

fn matcher(l: Lookup, context: bool) -> Matcher
    ensures { result ≡ matcher_for l context }
{
    verdict::matcher_of(l.into(), context, l.mask, l.props)
}

// ---- C's structs from ours, and ours from C's

impl From<Lookup> for Settings {
    ghost from_gives = { λ lookup settings. settings ≡ settings_for lookup };

    fn from(l: Lookup) -> Settings {
        Settings {
            table: l.gpos.into(),
            zwnj: l.zwnj,
            zwj: l.zwj,
            syllables: l.syllables,
        }
    }
}

impl From<Sought> for Sign {
    ghost from_gives = { λ sought sign. sign ≡ sign_of sought };

    fn from(s: Sought) -> Sign {
        Sign {
            test: s.test.into(),
            value: s.value,
        }
    }
}

// A question's answer, as its place in its list.
impl From<Result<u8, IllShaped>> for Said {
    ghost from_gives = { λ a told. MatchResult a (λ s. told ≡ record { number = 0; said = s }) (λ _. told ≡ record { number = 1; said = 0 }) };

    fn from(a: Result<u8, IllShaped>) -> Said {
        match a {
            Ok(said) => Said { number: 0, said },
            Err(IllShaped) => Said { number: 1, said: 0 },
        }
    }
}

impl From<Result<Walked, IllShaped>> for Step {
    ghost from_gives = { λ walked step. step ≡ step_of walked };

    fn from(w: Result<Walked, IllShaped>) -> Step {
        match w {
            Ok(Walked::Found(p)) => Step {
                number: 0,
                ranout: false,
                place: p,
            },
            Ok(Walked::Stopped(e)) => Step {
                number: 4,
                ranout: false,
                place: e,
            },
            Ok(Walked::RanOut(e)) => Step {
                number: 4,
                ranout: true,
                place: e,
            },
            Err(IllShaped) => Step {
                number: 1,
                ranout: false,
                place: 0,
            },
        }
    }
}
