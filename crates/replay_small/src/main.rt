// Replays a stored list of the original's answers on digests and allowances (standard input; compare/README.md says how it was made)
// and prints how many were asked of each kind and how many came out otherwise. A line's words are its operation, the state before,
// the arguments, and the original's answer; a number of 64 bits is two words, the high one first.
#![tactic(auto)]

use allowance::{Budget, Charged};
use digest::SetDigest;
use rule_digest::RuleSetDigest;
use stored::{Replayed, add_one, after, more, number, part, word};

// Nothing compares it, and it is printed a count at a time.
#[derive(Clone, Copy, Default)]
struct Tally {
    sets: u64,
    rules: u64,
    allowances: u64,
    wrong: u64,
}

// A line's operation: a call on a set digest, on a rule set digest or on an allowance.
#[derive(Clone, Copy, Debug, PartialEq, Eq)]
enum Operation {
    Set(SetCall),
    Rule(RuleCall),
    Allowance(AllowanceCall),
}

#[derive(Clone, Copy, Debug, PartialEq, Eq)]
enum SetCall {
    New,
    Full,
    Clear,
    Union,
    Add,
    AddArray,
    AddRange,
    MayHave,
    MayIntersect,
}

#[derive(Clone, Copy, Debug, PartialEq, Eq)]
enum RuleCall {
    New,
    Full,
    Add,
    IsFull,
    MayHave,
}

#[derive(Clone, Copy, Debug, PartialEq, Eq)]
enum AllowanceCall {
    ForTableBytes,
    Work,
    Alloc,
}

// By a line's number. A list has 0 to 8, 10 to 14 and 20 to 22; any other, of a damaged list, stands for the nearest below it.
impl From<u32> for Operation {
    fn from(number: u32) -> Operation {
        match number {
            0 => Operation::Set(SetCall::New),
            1 => Operation::Set(SetCall::Full),
            2 => Operation::Set(SetCall::Clear),
            3 => Operation::Set(SetCall::Union),
            4 => Operation::Set(SetCall::Add),
            5 => Operation::Set(SetCall::AddArray),
            6 => Operation::Set(SetCall::AddRange),
            7 => Operation::Set(SetCall::MayHave),
            8..=9 => Operation::Set(SetCall::MayIntersect),
            10 => Operation::Rule(RuleCall::New),
            11 => Operation::Rule(RuleCall::Full),
            12 => Operation::Rule(RuleCall::Add),
            13 => Operation::Rule(RuleCall::IsFull),
            14..=19 => Operation::Rule(RuleCall::MayHave),
            20 => Operation::Allowance(AllowanceCall::ForTableBytes),
            21 => Operation::Allowance(AllowanceCall::Work),
            _ => Operation::Allowance(AllowanceCall::Alloc),
        }
    }
}

fn main(rt: HostRuntime) {
    let mut words = stored::word_room();
    let count = stored::read_list(&mut words);
    let tally: Tally = stored::replay(&words, count);
    // What standard output doesn't take is lost: the status stays 0, and standard error says nothing.
    let _ = println!(rt;
        "set digests {}, rule set digests {}, allowances {}; answered otherwise {}",
        tally.sets, tally.rules, tally.allowances, tally.wrong
    );
}

impl stored::Tally for Tally {
    fn replay_line(&mut self, words: &[u32], at: usize) -> usize {
        let operation = Operation::from(word(words, at));
        let line = one(words, operation, after(at, 1));
        self.count(operation, line.right);
        line.next
    }
}

impl Tally {
    // One line more.
    fn count(&mut self, operation: Operation, right: bool) {
        match operation {
            Operation::Set(_) => add_one(&mut self.sets),
            Operation::Rule(_) => add_one(&mut self.rules),
            Operation::Allowance(_) => add_one(&mut self.allowances),
        }
        self.wrong = more(self.wrong, !right);
    }
}

// The three masks from a word on.
fn masks(words: &[u32], at: usize) -> SetDigest {
    let masks = [
        number(words, at),
        number(words, after(at, 2)),
        number(words, after(at, 4)),
    ];
    SetDigest { masks }
}

// The two numbers of an allowance from a word on.
fn budget(words: &[u32], at: usize) -> Budget {
    Budget::new(number(words, at), number(words, after(at, 2)))
}

// A line, from the word after its operation on.
fn one(words: &[u32], operation: Operation, at: usize) -> Replayed {
    match operation {
        Operation::Set(call) => set_line(words, call, at),
        Operation::Rule(call) => rule_line(words, call, at),
        Operation::Allowance(call) => allowance_line(words, call, at),
    }
}

fn set_line(words: &[u32], call: SetCall, at: usize) -> Replayed {
    match call {
        SetCall::New => digest_is(words, SetDigest::new(), at),
        SetCall::Full => digest_is(words, SetDigest::full(), at),
        SetCall::Clear => digest_is(words, masks(words, at).clear(), after(at, 6)),
        SetCall::Union => digest_is(
            words,
            masks(words, at).union(masks(words, after(at, 6))),
            after(at, 12),
        ),
        SetCall::Add => digest_is(
            words,
            masks(words, at).add(word(words, after(at, 6))),
            after(at, 7),
        ),
        SetCall::AddArray => array_line(words, at),
        SetCall::AddRange => range_line(words, at),
        SetCall::MayHave => yes_is(
            words,
            masks(words, at).may_have(word(words, after(at, 6))),
            after(at, 7),
        ),
        SetCall::MayIntersect => yes_is(
            words,
            masks(words, at).may_intersect(masks(words, after(at, 6))),
            after(at, 12),
        ),
    }
}

fn array_line(words: &[u32], at: usize) -> Replayed {
    let count = word(words, after(at, 6)) as usize;
    let from = after(at, 7);
    let to = after(from, count);
    digest_is(words, masks(words, at).add_array(part(words, from, to)), to)
}

fn range_line(words: &[u32], at: usize) -> Replayed {
    let added = masks(words, at).add_range(word(words, after(at, 6)), word(words, after(at, 7)));
    let digest = digest_is(words, added.digest, after(at, 8));
    let yes = yes_is(words, added.yes, digest.next);
    Replayed {
        right: digest.right && yes.right,
        next: yes.next,
    }
}

fn rule_line(words: &[u32], call: RuleCall, at: usize) -> Replayed {
    let rule = RuleSetDigest {
        mask: number(words, at),
    };
    match call {
        RuleCall::New => number_is(words, RuleSetDigest::new().mask, at),
        RuleCall::Full => number_is(words, RuleSetDigest::full().mask, at),
        RuleCall::Add => number_is(
            words,
            rule.add(word(words, after(at, 2))).mask,
            after(at, 3),
        ),
        RuleCall::IsFull => yes_is(words, rule.is_full(), after(at, 2)),
        RuleCall::MayHave => yes_is(
            words,
            rule.may_have(word(words, after(at, 2))),
            after(at, 3),
        ),
    }
}

fn allowance_line(words: &[u32], call: AllowanceCall, at: usize) -> Replayed {
    match call {
        AllowanceCall::ForTableBytes => budget_is(
            words,
            Budget::for_table_bytes(number(words, at)),
            after(at, 2),
        ),
        AllowanceCall::Work => charge_is(
            words,
            budget(words, at).work(number(words, after(at, 4))),
            after(at, 6),
        ),
        AllowanceCall::Alloc => charge_is(
            words,
            budget(words, at).alloc(number(words, after(at, 4)), number(words, after(at, 6))),
            after(at, 8),
        ),
    }
}

// Whether what we answer stands from a word on, and where the words after it begin.
fn number_is(words: &[u32], ours: u64, at: usize) -> Replayed {
    Replayed {
        right: number(words, at) == ours,
        next: after(at, 2),
    }
}

fn yes_is(words: &[u32], ours: bool, at: usize) -> Replayed {
    Replayed {
        right: word(words, at) == ours as u32,
        next: after(at, 1),
    }
}

fn digest_is(words: &[u32], ours: SetDigest, at: usize) -> Replayed {
    Replayed {
        right: masks(words, at) == ours,
        next: after(at, 6),
    }
}

fn budget_is(words: &[u32], ours: Budget, at: usize) -> Replayed {
    Replayed {
        right: budget(words, at) == ours,
        next: after(at, 4),
    }
}

fn charge_is(words: &[u32], ours: Charged, at: usize) -> Replayed {
    let taken = yes_is(words, ours.charge.is_ok(), at);
    let left = budget_is(words, ours.left, taken.next);
    Replayed {
        right: taken.right && left.right,
        next: left.next,
    }
}
