// What the programs report of their input: the spans of a triangle, and how many samples lie inside one.
#![tactic(auto)]

ghost use Rattle.std.specs.Prelude.{◌≡◌};
ghost use Rattle.reports.specs.declared.Trouble.TheVariants.{Refused};

mod minutes;
mod spans;

pub use minutes::{is_inside, write_count};
use readers::Corners;
use refusals::Refusal;
pub use spans::{first_part, next_part, rows_of};

// The samples inside the wedge, and all of them.
#[derive(Clone, Copy)]
pub struct Samples {
    pub inside: u32,
    pub all: u32,
}

// What ends a count: the wedge's refusal, that there are too many samples, or which line is bad, counted from 1, and which of its fields: 0, where
// it has another number of fields or is longer than 128 bytes.
#[derive(Clone, Copy)]
pub enum Trouble {
    Refused(Refusal),
    TooLong,
    Bad { line: u64, field: u32 },
}

impl From<Refusal> for Trouble {
    ghost from_gives = { λ refusal e. e ≡ Refused refusal };

    fn from(refusal: Refusal) -> Self {
        Trouble::Refused(refusal)
    }
}

// What `minutes` counts, or what went wrong first.
pub type Count = Result<Samples, Trouble>;

// Where counting stands between two lines: before the first one, or behind it, with the wedge that it is and the count so far.
#[derive(Clone, Copy)]
pub enum Tally {
    Fresh,
    Begun { wedge: Corners, count: Count },
}

// A part of what `spans` reports: how many bytes it has, and how many rows are left behind it, from `first` on.
#[derive(Clone, Copy)]
pub struct Part {
    pub end: usize,
    pub first: i32,
    pub left: u32,
}
