//! Whether a choice keeps the standing limits.
ghost use Rattle.std.specs.Prelude.{◌≡◌, ◌^◌, ◌<◌, ◌≤◌, length, get_or, pos, if◌then◌else◌, slice_index_or, unsigned_abs};
ghost use Rattle.limits.specs.Choices.{bits};
ghost use Rattle.limits.specs.Limits.{keeps, sum};
ghost use Rattle.jobs.specs.Books.{limits_of, blank};
ghost use Rattle.jobs.specs.Calls.{broken};

use crate::ledger::Ledger;
use limits::{Choice, Limit, Sense};

// The coefficient of a part if it is fitted, else 0.
fn taken(coefficient: &i32, fitted: bool) -> i64
    ensures is { result ≡ (if fitted then coefficient.now else pos 0) }
    ensures small { unsigned_abs result ≤ 2 ^ 31 }
{
    if fitted { i64::from(*coefficient) } else { 0 }
}

// The coefficients of the fitted parts, added up.
fn summed(limit: &Limit, parts: u8, choice: Choice) -> i64
    requires few { parts ≤ 48 }
    ensures { result ≡ sum limit.now.coefficients (bits parts choice.0) }
{
    let mut total = 0i64;
    // The word is halved beside the coefficients, as `bits` reads a word.
    let mut rest = choice.0;
    for coefficient in &limit.coefficients[..parts as usize] {
        total += taken(coefficient, rest % 2 == 1);
        rest /= 2;
    }
    total
}

// Whether a choice keeps a limit.
fn is_kept(limit: &Limit, parts: u8, choice: Choice) -> bool
    requires few { parts ≤ 48 }
    ensures { result ≡ keeps limit.now (bits parts choice.0) }
{
    let total = summed(limit, parts, choice);
    match limit.sense {
        Sense::AtMost => total <= i64::from(limit.bound),
        Sense::AtLeast => i64::from(limit.bound) <= total,
    }
}

impl Ledger {
    /// The first standing limit that the choice breaks.
    // For any number of parts up to 48, also on a ledger without a job, so the number is a parameter with a condition.
    pub fn first_broken(&self, parts: u8, choice: Choice) -> Option<usize>
        requires few { parts ≤ 48 }
        ensures { broken 0 (limits_of self.now.records self.now.count) (bits parts choice.0) ≡ result }
    {
        self.standing()
            .iter()
            .position(|record| !is_kept(&record.limit, parts, choice))
    }
}
