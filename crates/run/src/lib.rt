// How a run over a text ends. What a run does is said in specs/, over texts; the crate `run_calls` does it over rows.
#![tactic(auto)]

ghost use Rattle.std.specs.Prelude.{◌≡◌};
ghost use Rattle.run.specs.Run.{is_over};
ghost use Rattle.run.specs.Numbers.{run_number};

// What is the same for every chain of a run: the three switches and the lookup mask. A run is of GSUB, so no table is named.
#[derive(Clone, Copy, Debug, PartialEq, Eq)]
pub struct Given {
    pub zwnj: bool,
    pub zwj: bool,
    pub syllables: bool,
    pub mask: u32,
}

// Each with 01's number; Finished has none there, 0 is our choice.
#[derive(Clone, Copy, Debug, PartialEq, Eq)]
pub enum Ending {
    Finished = 0,
    Short = 8,
    Deep = 9,
    Full = 10,
}

// What a run is refused for before anything is tried, each with its number.
#[derive(Clone, Copy, Debug, PartialEq, Eq)]
pub enum RunRefusal {
    Shape = 1,
    Cursor = 2,
    Limits = 12,
    Book = 11,
    Match = 7,
}

// Whether no record at any level is looked at again.
pub fn is_over(e: Ending) -> bool
    ensures { result ≡ is_over e }
{
    matches!(e, Ending::Deep | Ending::Full)
}

// 01's number of a run's ending or refusal, for C.
pub fn number_of(e: Result<Ending, RunRefusal>) -> u8
    ensures { result ≡ run_number e }
{
    match e {
        Ok(ending) => ending as u8,
        Err(why) => why as u8,
    }
}
