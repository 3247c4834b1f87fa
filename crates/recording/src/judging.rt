//! Which records may be written.
ghost use Rattle.std.specs.Prelude.{◌≡◌, ℕ, ◌≤◌, length, OnOk};
ghost use Rattle.spelling.specs.Judging.{judge_part, judge_term, judge_terms, judge_bound, judge};
ghost use Rattle.spelling.specs.Spelling.{payload};
ghost use Rattle.recording.specs.Writing.{told, saying};

use crate::{Entry, Refusal};
use fields::judging::{LONGEST_NAME, MOST_AMOUNT, in_range, is_plain};
use limits::drafts::{MOST_BOUND, Term};
use records::{Part, Record};

// Judges a part's name, and then its mass, wait and price. A payload's `name`, `mass` and `amount` make these tests too, but each as its
// field is read, and with faults that have a place.
fn judge_part(part: Part) -> Result<(), Refusal>
    ensures { told result ≡ judge_part part.entry.name.now part.entry.mass part.entry.wait part.entry.price }
{
    if part.name.is_empty() || part.name.len() > LONGEST_NAME || !is_plain(part.name) {
        return Err(Refusal::BadName);
    }
    if !in_range(part.mass) || part.wait > MOST_AMOUNT || part.price > MOST_AMOUNT {
        return Err(Refusal::OutOfRange);
    }
    Ok(())
}

// Judges a term whose part has to be at least `least`. A payload's `term` makes these tests too, but its first two before a
// coefficient is read, and with faults that have a place; a draft's `term` refuses as a job does, and counts from the last part.
fn judge_term(least: u8, term: Term) -> Result<(), Refusal>
    ensures { told result ≡ judge_term least term }
{
    if term.part > 47 {
        return Err(Refusal::PartOutOfRange);
    }
    if term.part < least {
        return Err(Refusal::PartNotRising);
    }
    if !in_range(term.coefficient) {
        return Err(Refusal::OutOfRange);
    }
    Ok(())
}

// Judges a limit's terms, one after another.
fn judge_terms(terms: &[Term]) -> Result<(), Refusal>
    ensures { told result ≡ judge_terms 0 terms.now }
{
    let mut least = 0;
    for &term in terms {
        judge_term(least, term)?;
        least = term.part + 1;
    }
    Ok(())
}

// Judges a limit's bound. A job's `close` makes this test too, but refuses as a job does.
fn judge_bound(bound: i32) -> Result<(), Refusal>
    ensures { told result ≡ judge_bound bound }
{
    if bound.unsigned_abs() > MOST_BOUND {
        return Err(Refusal::OutOfRange);
    }
    Ok(())
}

// Judges an entry's fields in their order, and a bound after the terms.
#[tactic(auto, using(spelling::proofs::Back::short))]
pub fn judge(entry: Entry) -> Result<(), Refusal>
    ensures is { told result ≡ judge (saying entry.entry) }
    ensures small { OnOk result (length (payload (saying entry.entry)) ≤ 1000) }
{
    match entry {
        Record::Part(part) => judge_part(part),
        Record::Limit {
            sense: _,
            bound,
            terms,
        } => {
            judge_terms(terms)?;
            judge_bound(bound)
        }
        Record::Goal(_) | Record::End => Ok(()),
    }
}
