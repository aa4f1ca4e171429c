// Lines of text: why one that is no frame of the bench tape is none, and words put into one, of which no byte is left out.
#![tactic(auto)]

ghost use Rattle.std.specs.Prelude.{◌≡◌, not, position};
ghost use Rattle.std.specs.Char.{is_ascii_hexdigit};
ghost use Rattle.tape_frame.specs.Put.{Puts};
ghost use Rattle.explain_line.specs.Fault.{fault_of};
ghost use Rattle.explain_line.specs.Words.{IsFitting};

// What keeps a line from being a frame. It is said of a line that is none, so it is no Result.
#[derive(Clone, Copy, Debug, PartialEq, Eq)]
pub enum LineFault {
    // More digits than the longest frame has.
    TooLong,
    // The place of a byte that is no digit.
    NotDigit(usize),
    // An odd number of digits.
    Odd,
    // Its digits spell bytes. If it is no frame, then for its opening, settings, counts or length.
    OtherFault,
}

// ---- a line that is no frame

// The first byte that is no digit.
fn first_bad(line: &[u8]) -> Option<usize>
    ensures { result ≡ position (λ b. not (is_ascii_hexdigit b)) line.now }
{
    line.iter().position(|b| !b.is_ascii_hexdigit())
}

// Why a line that is no frame is none, as far as its digits tell.
#[tactic(auto, using(crate::specs::Fault::bad_is), unfolding(crate::specs::Fault::fault_of))]
pub fn why_none(line: &[u8]) -> LineFault
    ensures { result ≡ fault_of line.now }
{
    if tape_frame::MOST_DIGITS < line.len() {
        return LineFault::TooLong;
    }
    if let Some(bad) = first_bad(line) {
        return LineFault::NotDigit(bad);
    }
    if line.len() % 2 != 0 {
        return LineFault::Odd;
    }
    LineFault::OtherFault
}

// ---- words

// Words into a line from a place on, the whole of them, and where they end. What stands before and behind them stays.
#[tactic(auto, using(crate::specs::Words::put_paste, crate::specs::Words::put_again))]
pub fn put(line: &mut [u8], at: usize, words: &[u8]) -> usize
    requires { IsFitting line.old at words.now }
    ensures { Puts line.old at words.now line.new result }
{
    let behind = at + words.len();
    line[at..behind].copy_from_slice(words);
    behind
}
