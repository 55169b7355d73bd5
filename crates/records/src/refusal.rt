ghost use Rattle.std.specs.Prelude.{◌≡◌, Some};
ghost use Rattle.records.specs.Refusals.{number, refused};
ghost use Rattle.records.specs.declared.refusal.Cause.TheVariants.{Absent};

use std::fmt;

/// Why a file is refused, or a number that was asked for; each cause has the number that a refusal prints.
#[derive(Drop, Clone, Copy)]
pub enum Cause {
    /// The length is no multiple of 136.
    Length = 41,
    /// There is no record, or there are too many for the file's sort.
    Count = 42,
    /// A kind is unknown or stands where it may not.
    Kind = 43,
    /// A byte that must be 0 is not.
    Zero = 44,
    /// A number of a variable, or of variables, is out of place.
    Number = 45,
    /// A start word is 0.
    Start = 46,
    /// A number is over its limit.
    Limit = 47,
    /// What was asked for is not there.
    Absent = 48,
}

/// A refusal: its cause, and the record, the count or the number asked that it names.
#[derive(Drop, Clone, Copy)]
pub struct Refusal {
    pub cause: Cause,
    pub record: usize,
}

impl Refusal {
    /// The number of the cause, from 41 to 48.
    pub fn number(&self) -> u8
        ensures { result ≡ number self.now.cause }
    {
        self.cause as u8
    }

    /// The refusal of a number that was asked for and is not there.
    pub fn absent(asked: usize) -> Refusal
        ensures { (result.cause ≡ Absent) × (result.«record» ≡ asked) }
    {
        Refusal {
            cause: Cause::Absent,
            record: asked,
        }
    }
}

impl fmt::Display for Refusal {
    ghost output = { λ e. Some (refused e) };

    fn fmt<W: fmt::Write>(&self, f: &mut fmt::Formatter<W>) -> fmt::Result {
        write!(f, "refused {} record {}", self.number(), self.record)
    }
}
