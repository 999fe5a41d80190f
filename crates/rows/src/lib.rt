// The refusals that a file may meet, and the order of those that a T line may meet.
#![tactic(auto)]

ghost use Rattle.std.specs.Prelude.{◌≡◌};
ghost use Rattle.rows.specs.First.{verdict_of, first_of};

use std::fmt;

// Why a call refuses: the rows of the table of refusals.
#[derive(Clone, Copy, PartialEq, Eq)]
pub enum Refusal {
    ShortBuffer,
    NoFile,
    Malformed,
    OutOfOrder,
    DeclaredTwice,
    Undeclared,
    TooMany,
    BadCounts,
    NoExpression,
    GrantAway,
    TwoSorts,
    WrongExpression,
    UndeclaredThere,
    TooLarge,
    UndeclaredAsked,
    TooManyBindings,
}

impl From<Refusal> for u8 {
    ghost use Rattle.std.specs.Prelude.{◌≡◌};
    ghost use Rattle.rows.specs.First.{number_of};

    ghost from_gives = { λ r n. n ≡ number_of r };

    // The number of the row.
    fn from(r: Refusal) -> u8 {
        match r {
            Refusal::ShortBuffer => 1,
            Refusal::NoFile => 2,
            Refusal::Malformed => 3,
            Refusal::OutOfOrder => 4,
            Refusal::DeclaredTwice => 5,
            Refusal::Undeclared => 6,
            Refusal::TooMany => 7,
            Refusal::BadCounts => 8,
            Refusal::NoExpression => 9,
            Refusal::GrantAway => 10,
            Refusal::TwoSorts => 11,
            Refusal::WrongExpression => 12,
            Refusal::UndeclaredThere => 13,
            Refusal::TooLarge => 14,
            Refusal::UndeclaredAsked => 15,
            Refusal::TooManyBindings => 16,
        }
    }
}

// A refusal: the row, the line at fault, from 1, or 0 for the file as a whole, and a place.
#[derive(Clone, Copy, PartialEq, Eq)]
pub struct Refused {
    pub refusal: Refusal,
    pub line: usize,
    pub place: usize,
}

// Number, line and place, with commas between them.
impl fmt::Display for Refused {
    fn fmt<W: fmt::Write>(&self, f: &mut fmt::Formatter<W>) -> fmt::Result {
        write!(f, "{},{},{}", u8::from(self.refusal), self.line, self.place)
    }
}

// The first of four rows that is met: the group has passed, the counts are bad, there is one too many, and the name is there already.
// A name that is there counts as one too many before it counts as there.
#[tactic(auto, unfolding(reader::specs::Rows::first, reader::specs::Rows::row, reader::specs::Rows::placeless))]
pub fn first_met(late: bool, counts: bool, many: bool, there: bool) -> Result<(), Refusal>
    ensures { verdict_of result ≡ first_of late counts many there }
{
    if late {
        return Err(Refusal::OutOfOrder);
    }
    if counts {
        return Err(Refusal::BadCounts);
    }
    if many {
        return Err(Refusal::TooMany);
    }
    if there {
        return Err(Refusal::DeclaredTwice);
    }
    Ok(())
}
