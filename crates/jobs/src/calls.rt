//! The calls of a job.
ghost use Rattle.std.specs.Prelude.{◌≡◌, min, [], map, length, IfOk, MatchResult};
ghost use Rattle.limits.specs.Choices.{bits};
ghost use Rattle.limits.specs.Limits.{keeps_all};
ghost use Rattle.limits.specs.Refusals.{told};
ghost use Rattle.diagrams.specs.Needs.{needs};
ghost use Rattle.solving.specs.Settling.{Solved};
ghost use Rattle.jobs.specs.Calls.{standing, tested as tests_of, begun, after_begin, closed, after_close, taken_back, after_take_back, asked, checkable, broken};
ghost use Rattle.jobs.specs.Stands.{stands, places, limit_from};

use crate::Job;
use crate::ledger::{Ledger, RECORDS};
use crate::weighing::in_range;
use grades::Grade;
use limits::drafts::{Draft, MOST_BOUND, Side};
use limits::{Choice, Limit, Refusal};
use memories::Memory;
use rows::Rows;
use solving::{Answer, solve};
use tables::{NodeTable, Place};
use walks::extend;

// Close's tests before its nodes are made.
fn tested(parts: u8, count: usize, named: Option<u8>, limit: &Limit) -> Result<(), Refusal>
    ensures { told result ≡ tests_of parts count named limit.now.bound }
{
    if limit.bound.unsigned_abs() > MOST_BOUND {
        return Err(Refusal::OutOfRange);
    }
    if let Some(part) = named
        && part >= parts
    {
        return Err(Refusal::PartOutOfRange);
    }
    if count >= RECORDS {
        return Err(Refusal::TooManyLimits);
    }
    Ok(())
}

impl<'a> Job<'a> {
    /// A job without parts and limits, over lent places for its nodes.
    pub fn new(lent: &'a mut [Place]) -> Job<'a>
        ensures stands { stands result ≡ standing 0 [] }
        ensures places { places result ≡ min (length lent.old) 60000 }
    {
        Job {
            parts: 0,
            table: NodeTable::over(lent),
            ledger: Ledger::empty(),
        }
    }

    /// How many nodes the standing limits need.
    pub fn used(&self) -> usize
        ensures { result ≡ needs (stands self.now).parts (stands self.now).limits }
    {
        self.table.used()
    }

    /// Sets the number of parts and drops all limits.
    pub fn begin(&mut self, parts: u8) -> Result<(), Refusal>
        ensures reply { told result ≡ begun parts }
        ensures stands { stands self.new ≡ after_begin (stands self.old) parts }
        ensures places { places self.new ≡ places self.old }
    {
        if parts > 48 {
            return Err(Refusal::PartOutOfRange);
        }
        self.parts = parts;
        self.ledger.drop_all();
        self.table.clear();
        Ok(())
    }

    /// Makes the draft a standing limit. The draft is spent, refused or not; a refused close leaves the job as it was.
    pub fn close<M: Memory>(
        &mut self,
        draft: Draft,
        side: Side,
        memory: &mut M,
    ) -> Result<(), Refusal>
        ensures reply { told result ≡ closed (places self.old) (stands self.old) draft.last (limit_from draft side) }
        ensures stands { stands self.new ≡ after_close (places self.old) (stands self.old) draft.last (limit_from draft side) }
        ensures places { places self.new ≡ places self.old }
    {
        let last = draft.last();
        let limit = draft.finish(side);
        tested(self.parts, self.ledger.count, last, &limit)?;
        let mark = self.table.used();
        let product = self.ledger.product();
        let Some(edge) = extend(&mut self.table, self.parts, product, &limit, memory) else {
            return Err(Refusal::TooFewPlaces);
        };
        self.ledger.post(limit, edge, mark);
        Ok(())
    }

    /// Drops the latest standing limit; its places are free again.
    pub fn take_back(&mut self) -> Result<(), Refusal>
        ensures reply { told result ≡ taken_back (stands self.old) }
        ensures stands { stands self.new ≡ after_take_back (stands self.old) }
        ensures places { places self.new ≡ places self.old }
    {
        if self.ledger.count == 0 {
            return Err(Refusal::NothingStands);
        }
        let mark = self.ledger.drop_last();
        self.table.truncate(mark);
        Ok(())
    }

    /// The rule's choice among those that keep all standing limits, with its grade; none if nothing fits.
    pub fn solve<G: Grade>(
        &self,
        weights: &[G::Weight],
        rows: &mut Rows<G>,
    ) -> Result<Option<Answer<G>>, Refusal>
        ensures reply { told result ≡ asked G.kind (stands self.now) (map G.weighs weights.now) (length rows.old.rows.now) }
        ensures answer { MatchResult result (λ a. Solved G.kind G.means (map G.weighs weights.now) (keeps_all (stands self.now).limits) a) (λ _. rows.new ≡ rows.old) }
        ensures named { rows.new.rows.ghost_name ≡ rows.old.rows.ghost_name }
        ensures kept { length rows.new.rows.now ≡ length rows.old.rows.now }
    {
        if weights.len() != self.parts as usize {
            return Err(Refusal::WrongCount);
        }
        if !in_range::<G>(weights) {
            return Err(Refusal::OutOfRange);
        }
        if rows.len() < self.table.used() {
            return Err(Refusal::TooFewRows);
        }
        Ok(solve(&self.table, self.ledger.product(), weights, rows))
    }

    /// The first standing limit that a choice breaks, counted from 0.
    pub fn check(&self, choice: Choice) -> Result<Option<usize>, Refusal>
        ensures reply { told result ≡ checkable (stands self.now).parts choice.0 }
        ensures answer { IfOk result (λ o. broken 0 (stands self.now).limits (bits (stands self.now).parts choice.0) ≡ o) }
    {
        if choice.0 >> self.parts != 0 {
            return Err(Refusal::PartOutOfRange);
        }
        Ok(self.ledger.first_broken(self.parts, choice))
    }
}
