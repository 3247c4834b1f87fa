//! The limit of a record closed in a job.
ghost use Rattle.std.specs.Prelude.{◌≡◌, List, replicate, pos, None};
ghost use Rattle.limits.specs.Refusals.{told};
ghost use Rattle.limits.specs.declared.drafts.Term.{Term as LimitTerm};
ghost use Rattle.records.specs.Meanings.{LeftIn, terms_in};
ghost use Rattle.jobs.specs.Calls.{closed, after_close};
ghost use Rattle.jobs.specs.Stands.{stands, places};
ghost use Rattle.sheets.specs.Told.{filled, highest, limit_of};

use jobs::Job;
use limits::Refusal;
use limits::drafts::{Draft, Side, draft_of};
use memories::Memory;
use records::Terms;

// The draft that a limit's terms make. A term that was read is never refused.
fn drafted(bytes: &[u8]) -> Draft
    ensures coefficients { (ts : List LimitTerm) → LeftIn bytes.now 0 0 ts → result.coefficients ≡ filled (replicate 48 (pos 0)) ts }
    ensures last { (ts : List LimitTerm) → LeftIn bytes.now 0 0 ts → result.last ≡ highest None ts }
{
    draft_of(Terms::new(bytes))
}

/// Closes the limit of a record in the job.
pub fn close_limit<M: Memory>(
    job: &mut Job,
    side: Side,
    terms: &[u8],
    memory: &mut M,
) -> Result<(), Refusal>
    requires { LeftIn terms.now 0 0 (terms_in terms.now) }
    ensures reply { told result ≡ closed (places job.old) (stands job.old) (highest None (terms_in terms.now)) (limit_of side.sense side.bound (terms_in terms.now)) }
    ensures stands { stands job.new ≡ after_close (places job.old) (stands job.old) (highest None (terms_in terms.now)) (limit_of side.sense side.bound (terms_in terms.now)) }
    ensures places { places job.new ≡ places job.old }
{
    job.close(drafted(terms), side, memory)
}
