//! A whole sheet read into a job.
#![tactic(auto)]

ghost use Rattle.std.specs.Prelude.{◌≡◌};

use arrayvec::ArrayVec;
use records::{Goal, Part};

mod closing;
pub mod faults;
pub mod laws;
mod noting;
pub mod reading;

/// The mass, wait and price of a part.
#[derive(Clone, Copy, PartialEq, Eq, Debug, Default, Drop)]
pub struct Figures {
    pub mass: i32,
    pub wait: u32,
    pub price: u32,
}

impl From<Part<'_>> for Figures {
    ghost from_gives = { λ part figures. (figures.mass ≡ part.mass) × (figures.wait ≡ part.wait) × (figures.price ≡ part.price) };

    fn from(part: Part<'_>) -> Figures {
        Figures {
            mass: part.mass,
            wait: part.wait,
            price: part.price,
        }
    }
}

/// The figures of the parts, and the goal. The names are the reader's, which tests a part's name against those before it.
#[derive(Drop)]
pub struct Notes {
    figures: ArrayVec<Figures, 48>,
    goal: Goal,
}

/// Whether a sheet goes on after a record: with a name for each, since neither is a value nor a break with one.
#[derive(Clone, Copy, PartialEq, Eq, Debug, Drop)]
pub enum Progress {
    GoesOn,
    Ended,
}
