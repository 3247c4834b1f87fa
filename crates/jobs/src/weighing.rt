//! Whether all weights are in range.
ghost use Rattle.std.specs.Prelude.{◌≡◌, map};
ghost use Rattle.jobs.specs.Calls.{all_in_range};

use grades::Grade;

/// Whether each weight means a grade in range.
pub fn in_range<G: Grade>(weights: &[G::Weight]) -> bool
    ensures { result ≡ all_in_range G.kind (map G.weighs weights.now) }
{
    weights.iter().all(|weight| G::of_weight(weight).is_some())
}
