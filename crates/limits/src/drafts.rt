//! A limit in the making.
ghost use Rattle.std.specs.Prelude.{◌≡◌, ℕ, ◌≤◌, length, replicate, pos, None, slice_index_or, unsigned_abs};
ghost use Rattle.std.specs.Iterator.{IsFinite};
ghost use Rattle.limits.specs.Refusals.{told};
ghost use Rattle.limits.specs.Drafts.{tested, coefficients_after, last_after, DraftOf};

use crate::{Limit, MOST_PARTS, Refusal, Sense};

/// Coefficients go so far either way.
pub const MOST_COEFFICIENT: u32 = 1_000_000;

/// Bounds go so far either way.
pub const MOST_BOUND: u32 = 100_000_000;

/// A part and its coefficient.
#[derive(Clone, Copy, PartialEq, Eq, Debug, Drop)]
pub struct Term {
    pub part: u8,
    pub coefficient: i32,
}

/// What a limit's sum is held to.
#[derive(Clone, Copy, PartialEq, Eq, Debug, Drop)]
pub struct Side {
    pub sense: Sense,
    pub bound: i32,
}

/// The coefficients given so far, and the highest part named. It is not `Drop`: it ends in a close or a scrap.
pub struct Draft {
    coefficients: [i32; MOST_PARTS],
    last: Option<u8>,
    ghost whole: { length coefficients ≡ 48 },
    ghost small: { (i : ℕ) → unsigned_abs (slice_index_or coefficients i (pos 0)) ≤ 1000000 },
}

impl Draft {
    /// A draft with all coefficients 0.
    pub fn open() -> Draft
        ensures coefficients { result.coefficients ≡ replicate 48 (pos 0) }
        ensures last { result.last ≡ None }
    {
        Draft {
            coefficients: [0; MOST_PARTS],
            last: None,
        }
    }

    /// Takes a term; parts come in rising order. A refused term leaves the draft as it was.
    pub fn term(&mut self, term: Term) -> Result<(), Refusal>
        ensures reply { told result ≡ tested self.old.last term.part term.coefficient }
        ensures coefficients { self.new.coefficients ≡ coefficients_after (tested self.old.last term.part term.coefficient) self.old.coefficients term.part term.coefficient }
        ensures last { self.new.last ≡ last_after (tested self.old.last term.part term.coefficient) self.old.last term.part }
    {
        if term.part as usize >= MOST_PARTS {
            return Err(Refusal::PartOutOfRange);
        }
        if let Some(before) = self.last
            && term.part <= before
        {
            return Err(Refusal::PartNotRising);
        }
        if term.coefficient.unsigned_abs() > MOST_COEFFICIENT {
            return Err(Refusal::OutOfRange);
        }
        self.coefficients[term.part as usize] = term.coefficient;
        self.last = Some(term.part);
        Ok(())
    }

    /// The highest part that a term names, whatever its coefficient.
    pub fn last(&self) -> Option<u8>
        ensures { result ≡ self.now.last }
    {
        self.last
    }

    /// The limit that the terms make; the draft is spent.
    pub fn finish(self, side: Side) -> Limit
        ensures is { result ≡ record { coefficients = self.coefficients; sense = side.sense; bound = side.bound } }
        ensures whole { length result.coefficients ≡ 48 }
        ensures small { (i : ℕ) → unsigned_abs (slice_index_or result.coefficients i (pos 0)) ≤ 1000000 }
    {
        let Draft {
            coefficients,
            last: _,
        } = self;
        Limit {
            coefficients,
            sense: side.sense,
            bound: side.bound,
        }
    }

    /// Ends the draft without a limit.
    pub fn scrap(self) {
        let Draft {
            coefficients: _,
            last: _,
        } = self;
    }
}

/// A draft that has taken terms, one after another; a refused one leaves it as it was.
// A function beside the type, since makers reach `Draft`, and no call that they reach has a condition.
pub fn draft_of<I: Iterator<Item = Term> + Drop>(terms: I) -> Draft
    requires can { I.can_next terms }
    requires ends { IsFinite (I.remaining terms) }
    ensures { DraftOf I.next_gives terms result.coefficients result.last }
{
    let mut draft = Draft::open();
    for term in terms {
        let _ = draft.term(term);
    }
    draft
}
