//! The fields of a sheet's records, read one by one.
#![tactic(auto)]

ghost use Rattle.std.specs.Prelude.{◌≡◌};
ghost use Rattle.numbers.specs.Numbers.{fault_number};
ghost use Rattle.fields.specs.Faults.{reason_number, layer_number};

use numbers::NumberFault;

pub mod judging;
mod naming;
mod reading;

/// Why a sheet is refused by its own bytes. Its numbers are also those of faults of numbers, of a job's refusals and of a writer's: four enums,
/// since each lists what its own layer refuses with.
#[derive(Clone, Copy, PartialEq, Eq, Debug, Drop)]
pub enum Reason {
    CutShort = 1,
    NotShortest = 2,
    BadKind = 3,
    WrongLength = 4,
    BadName = 5,
    BadGoal = 6,
    PartOutOfRange = 7,
    PartNotRising = 8,
    OutOfRange = 9,
}

impl Reason {
    /// The number by which the reason is known in listings.
    pub fn number(self) -> u8
        ensures { result ≡ reason_number self }
    {
        self as u8
    }
}

impl From<NumberFault> for Reason {
    ghost from_gives = { λ fault reason. reason_number reason ≡ fault_number fault };

    fn from(fault: NumberFault) -> Reason {
        match fault {
            NumberFault::CutShort => Reason::CutShort,
            NumberFault::NotShortest => Reason::NotShortest,
        }
    }
}

/// Where a sheet is at fault: in its numbers, its records, or what a job makes of them.
#[derive(Clone, Copy, PartialEq, Eq, Debug, Drop)]
pub enum Layer {
    Numbers = 1,
    Records = 2,
    Jobs = 3,
}

impl Layer {
    /// The number by which the layer is known in listings.
    pub fn number(self) -> u8
        ensures { result ≡ layer_number self }
    {
        self as u8
    }

    /// A fault of the layer, at a place.
    pub fn fault(self, reason: Reason, place: usize) -> Fault
        ensures { result ≡ record { reason = reason; layer = self; place = place } }
    {
        Fault {
            reason,
            layer: self,
            place,
        }
    }
}

/// Why a sheet is refused by its own bytes, in which layer, and at which byte.
#[derive(Clone, Copy, PartialEq, Eq, Debug, Drop)]
pub struct Fault {
    pub reason: Reason,
    pub layer: Layer,
    pub place: usize,
}

/// A record's payload, read field by field: the sheet up to the payload's end, the place of the record's first byte,
/// and the place that is read next. That this place is within the sheet is no ghost field: a payload is made at any place, and reading a field
/// finds whether bytes stand there.
#[derive(Clone, Copy, PartialEq, Eq, Debug, Drop)]
pub struct Payload<'a> {
    body: &'a [u8],
    place: usize,
    at: usize,
}
