//! Why a sheet is refused.
ghost use Rattle.std.specs.Prelude.{◌≡◌};
ghost use Rattle.sheets.specs.declared.faults.SheetFault.TheVariants.{Read};
ghost use Rattle.sheets.specs.Faults.{number_of, layer_of, place_of};

use fields::{Fault, Layer};
use limits::Refusal;

/// Why a sheet is refused: by its own bytes, or by the job that closes the limit of the record at a place.
#[derive(Clone, Copy, PartialEq, Eq, Debug, Drop)]
pub enum SheetFault {
    Read(Fault),
    Limit { refusal: Refusal, place: usize },
}

impl SheetFault {
    /// The number by which the fault is known in listings.
    pub fn number(self) -> u8
        ensures { result ≡ number_of self }
    {
        match self {
            SheetFault::Read(fault) => fault.reason.number(),
            SheetFault::Limit { refusal, place: _ } => refusal.number(),
        }
    }

    /// The number of its layer.
    pub fn layer(self) -> u8
        ensures { result ≡ layer_of self }
    {
        match self {
            SheetFault::Read(fault) => fault.layer.number(),
            SheetFault::Limit {
                refusal: _,
                place: _,
            } => Layer::Jobs.number(),
        }
    }

    /// Its place in the sheet.
    pub fn place(self) -> usize
        ensures { result ≡ place_of self }
    {
        match self {
            SheetFault::Read(fault) => fault.place,
            SheetFault::Limit { refusal: _, place } => place,
        }
    }
}

impl From<Fault> for SheetFault {
    ghost from_gives = { λ fault sheet_fault. sheet_fault ≡ Read fault };

    fn from(fault: Fault) -> SheetFault {
        SheetFault::Read(fault)
    }
}

/// The first fault of a sheet, and the number of its record.
#[derive(Clone, Copy, PartialEq, Eq, Debug, Drop)]
pub struct RecordFault {
    pub record: usize,
    pub fault: SheetFault,
}
