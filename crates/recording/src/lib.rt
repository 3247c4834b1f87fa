//! A sheet's records, written one after another into a lent slice.
#![tactic(auto)]

ghost use Rattle.std.specs.Prelude.{◌≡◌};
ghost use Rattle.records.specs.Sheets.{goal_says, end_says};
ghost use Rattle.recording.specs.Writing.{refusal_number, saying};

use limits::drafts::Term;
use records::{Goal, Record};

mod judging;
mod payloads;
pub mod writing;

/// Why a record is not written. A goal's code cannot be refused, since a goal is one of three.
#[derive(Clone, Copy, PartialEq, Eq, Debug, Drop)]
pub enum Refusal {
    BadName = 5,
    PartOutOfRange = 7,
    PartNotRising = 8,
    OutOfRange = 9,
    OutputShort = 13,
}

impl Refusal {
    /// The number by which the refusal is known.
    pub fn number(self) -> u8
        ensures { result ≡ refusal_number self }
    {
        self as u8
    }
}

/// A record that is to be written, whose terms are a slice.
pub type Entry<'a> = Record<'a, &'a [Term]>;

/// The entry of a goal, for makers who know no record by its parts.
pub fn goal_entry(goal: Goal) -> Entry<'static>
    ensures { saying result ≡ goal_says goal }
{
    Record::Goal(goal)
}

/// The entry of the end, for makers likewise.
pub fn end_entry() -> Entry<'static>
    ensures { saying result ≡ end_says }
{
    Record::End
}

/// A lent slice, and how many of its bytes are written.
#[derive(Drop)]
pub struct Writer<'a> {
    out: &'a mut [u8],
    len: usize,
}
