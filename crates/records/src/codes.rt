//! The codes of goals and of kinds, and which kinds of records may come.
ghost use Rattle.std.specs.Prelude.{◌≡◌};
ghost use Rattle.records.specs.Codes.{goal_code, kind_code, GoalOf, KindOf};
ghost use Rattle.records.specs.Sheets.{allowed};

use crate::{Goal, Kind, Stage, UnknownCode};
use limits::Sense;

impl Goal {
    /// The code by which a sheet names the goal.
    pub fn code(self) -> u8
        ensures { result ≡ goal_code self }
    {
        self as u8
    }
}

// By a match that has each code again: nothing derives a goal from its discriminant.
impl TryFrom<u32> for Goal {
    type Error = UnknownCode;

    ghost try_from_gives = { GoalOf };

    fn try_from(code: u32) -> Result<Self, UnknownCode> {
        match code {
            0 => Ok(Goal::Mass),
            1 => Ok(Goal::Wait),
            2 => Ok(Goal::MassPrice),
            _ => Err(UnknownCode(code)),
        }
    }
}

impl Kind {
    /// The code by which a sheet names the kind. By a match, since a kind that holds a sense has no discriminant.
    pub fn code(self) -> u32
        ensures { result ≡ kind_code self }
    {
        match self {
            Kind::End => 0,
            Kind::Part => 1,
            Kind::Limit(Sense::AtMost) => 2,
            Kind::Limit(Sense::AtLeast) => 3,
            Kind::Goal => 4,
        }
    }
}

// By a match that has each code again: nothing derives a kind from its code.
impl TryFrom<u32> for Kind {
    type Error = UnknownCode;

    ghost try_from_gives = { KindOf };

    fn try_from(code: u32) -> Result<Self, UnknownCode> {
        match code {
            0 => Ok(Kind::End),
            1 => Ok(Kind::Part),
            2 => Ok(Kind::Limit(Sense::AtMost)),
            3 => Ok(Kind::Limit(Sense::AtLeast)),
            4 => Ok(Kind::Goal),
            _ => Err(UnknownCode(code)),
        }
    }
}

impl Stage {
    /// Whether a record of a kind may come now.
    pub fn allows(self, kind: Kind) -> bool
        ensures { result ≡ allowed self (kind_code kind) }
    {
        match self {
            Stage::Parts => true,
            Stage::Limits => !matches!(kind, Kind::Part),
            Stage::End => matches!(kind, Kind::End),
        }
    }
}
