// The numbers of documents 01 and 02, each of them once. `meaning/specs` says the same numbers for the definitions; the proofs hold the two to each other.
// And the one choice that a caller has (T-02), which the definitions take from here.
#![tactic(auto)]

ghost use Rattle.std.specs.Prelude.{◌≡◌, ℕ};

// What is allowed: section 1. The ends lo and hi lie between -MOST_END and MOST_END.
pub const MOST_EVENTS: usize = 128;

pub const MOST_HORIZON: i32 = 100000;

pub const MOST_END: i32 = 100000;

pub const MOST_RECORDS: usize = 256;

pub const MOST_LEVELS: usize = 256;

pub const MOST_LEVELS_TOGETHER: usize = 8192;

pub const MOST_BYTES: usize = 60000;

pub const TOP_LEVEL: u8 = 15;

// The least level of a distance that is allowed.
pub const LEAST_LEVEL: u8 = 1;

// The first code of the horizon: those below it are the records' (section 5), two for each.
pub const HORIZON_CODES: usize = 2 * MOST_RECORDS;

// A plan has two bounds for each event other than 0, and two for each record.
pub const MOST_BOUNDS: usize = 2 * (MOST_EVENTS - 1) + 2 * MOST_RECORDS;

// The numbers of an outcome: section 3; those of refusals stand below.
pub const SOLVED: u8 = 0;

pub const NO_TIMETABLE: u8 = 1;

// Why a text or an area is refused.
#[derive(Clone, Copy, PartialEq, Eq)]
pub enum Fault {
    WrongForm,
    TooMany,
    OutOfRange,
    SameEvent,
    NotPeaked,
    AreaTooShort,
    NothingAllowed,
}

// The number of each: section 3, and T-04.
impl From<Fault> for u8 {
    ghost use Rattle.scope.specs.Faults.{number};

    ghost from_gives = { λ fault n. n ≡ number fault };

    fn from(fault: Fault) -> u8 {
        match fault {
            Fault::WrongForm => 2,
            Fault::TooMany => 3,
            Fault::OutOfRange => 4,
            Fault::SameEvent => 5,
            Fault::NotPeaked => 6,
            Fault::AreaTooShort => 7,
            Fault::NothingAllowed => 8,
        }
    }
}

// A fault and its place: the line it stands in, 0 where it is the text's length or an area's.
#[derive(Clone, Copy, PartialEq, Eq)]
pub struct Refusal {
    pub fault: Fault,
    pub line: usize,
}

// What says why a text or an area is refused: a number, and the line that goes with it.
pub trait Refused: Copy {
    ghost number_in: { Self → ℕ };

    ghost line_in: { Self → ℕ };

    fn number(self) -> u8
        ensures { result ≡ number_in self };

    fn line(self) -> usize
        ensures { result ≡ line_in self };
}

impl Refused for Refusal {
    ghost use Rattle.scope.specs.Faults.{number};

    ghost number_in = { λ refused. number refused.fault };

    ghost line_in = { λ refused. refused.line };

    fn number(self) -> u8 {
        u8::from(self.fault)
    }

    fn line(self) -> usize {
        self.line
    }
}

// The two as they stand, any number at all.
impl Refused for (u8, usize) {
    ghost number_in = { λ refused. refused.0 };

    ghost line_in = { λ refused. refused.1 };

    fn number(self) -> u8 {
        self.0
    }

    fn line(self) -> usize {
        self.1
    }
}

// Which of the best timetables is given: the one with the greatest time of each event, or the one with the least.
#[derive(Clone, Copy)]
pub enum Side {
    Latest,
    Earliest,
}
