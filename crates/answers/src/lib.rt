// What a call is set to, what it answers, and what of that needs no map: tests 1, 17 and 2.
#![tactic(auto)]

ghost use Rattle.std.specs.Prelude.{◌≡◌};
ghost use Rattle.definitions.specs.Answer.{shown, bad_limit, sheet_fault};
ghost use Rattle.fields.specs.Fields.{fault_of};
ghost use Rattle.answers.specs.Answers.{settings_of, alone, number_of, refusal_of, answer_of, parts_of};
ghost use Rattle.answers.specs.Telling.{Early};

use emitting::Report;
use fields::Fault;

// The most bytes of a sheet.
pub const SHEET: usize = 40960;

// The highest limit of rows, and the bytes that hold as many (FORMAT 8.2).
pub const MOST_ROWS: usize = 256;

pub const DIAGNOSIS: usize = emitting::ROW * MOST_ROWS;

// What a call is set to: how many rows of a diagnosis are written at most (FORMAT 8.2).
#[derive(Clone, Copy)]
pub struct Settings {
    pub rows: usize,
}

impl Settings {
    // As the programs are set where they are told no limit (FORMAT 9.5).
    pub fn shown() -> Settings
        ensures { settings_of result ≡ shown }
    {
        Settings { rows: 64 }
    }

    // Whether the limit is none of 1 to 256: test 17.
    fn is_bad_limit(self) -> bool
        ensures { result ≡ bad_limit (settings_of self) }
    {
        self.rows == 0 || MOST_ROWS < self.rows
    }
}

// Why a call refuses, in the order of the numbers, 1 to 10 and 17: 8 and 9 come with a report of their rows, 10 with the size
// that the listing lacks (FORMAT 7.2, 7.4).
#[derive(Clone, Copy)]
pub enum Refusal {
    LongSheet,
    ShortDiagnosis,
    Past,
    NotAllowed,
    Words,
    Repeats,
    Fill,
    NoOrder(Report),
    TypeRefused(Report),
    ShortListing(usize),
    RowLimit,
}

// What a call answers: the size written, or why it refuses.
pub type Answer = Result<usize, Refusal>;

// An answer in parts, for those who tell or compare it as numbers: the law's number, 0 where it accepts, the size, how many rows
// are written and whether there are more. What a case does not name is 0 (FORMAT 7.2).
#[derive(Clone, Copy, PartialEq, Eq)]
pub struct Parts {
    pub number: usize,
    pub size: usize,
    pub rows: usize,
    pub more: bool,
}

impl Refusal {
    // The law's number.
    pub fn number(self) -> usize
        ensures { result ≡ number_of self }
    {
        match self {
            Refusal::LongSheet => 1,
            Refusal::ShortDiagnosis => 2,
            Refusal::Past => 3,
            Refusal::NotAllowed => 4,
            Refusal::Words => 5,
            Refusal::Repeats => 6,
            Refusal::Fill => 7,
            Refusal::NoOrder(_) => 8,
            Refusal::TypeRefused(_) => 9,
            Refusal::ShortListing(_) => 10,
            Refusal::RowLimit => 17,
        }
    }

    fn parts(self) -> Parts
        ensures { parts_of result ≡ refusal_of self }
    {
        let (size, rows, more) = match self {
            Refusal::NoOrder(report) => (0, report.rows, report.more),
            Refusal::TypeRefused(report) => (0, report.rows, report.more),
            Refusal::ShortListing(size) => (size, 0, false),
            _ => (0, 0, false),
        };
        Parts {
            number: self.number(),
            size,
            rows,
            more,
        }
    }
}

impl From<Answer> for Parts {
    ghost from_gives = { λ a p. parts_of p ≡ answer_of a };

    fn from(answer: Answer) -> Parts {
        match answer {
            Ok(size) => Parts {
                number: 0,
                size,
                rows: 0,
                more: false,
            },
            Err(refusal) => refusal.parts(),
        }
    }
}

// What a fault in a sheet is refused with (FORMAT 7.2).
impl From<Fault> for Refusal {
    ghost from_gives = { λ f r. refusal_of r ≡ alone (sheet_fault (fault_of f)) };

    fn from(fault: Fault) -> Refusal {
        match fault {
            Fault::Past => Refusal::Past,
            Fault::NotAllowed => Refusal::NotAllowed,
        }
    }
}

// Tests 1, 17 and 2, for a sheet of `size` bytes and a diagnosis slice of `room`: the first that refuses. Six times a limit that
// is allowed is no large number.
pub fn refused_early(settings: Settings, size: usize, room: usize) -> Result<(), Refusal>
    ensures { Early settings size room result }
{
    if SHEET < size {
        return Err(Refusal::LongSheet);
    }
    if settings.is_bad_limit() {
        return Err(Refusal::RowLimit);
    }
    if room < emitting::ROW * settings.rows {
        return Err(Refusal::ShortDiagnosis);
    }
    Ok(())
}
