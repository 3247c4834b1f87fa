//! Questions that their constants or the range of a sum settle.
#![tactic(auto)]

ghost use Rattle.std.specs.Prelude.{◌≡◌, ◌^◌, ◌≤◌, IfSome, MatchOption, unsigned_abs};
ghost use Rattle.diagrams.specs.declared.Child.TheVariants.{Terminal};
ghost use Rattle.diagrams.specs.Apply.{Bit, Answers, Open, Known, constant_edge, Decides};
ghost use Rattle.questions.specs.Bounds.{kept_question};
ghost use Rattle.questions.specs.Comparisons.{compared};
ghost use Rattle.questions.specs.Products.{Squares};
ghost use Rattle.questions.specs.Ranges.{wider, CanRange, RangesAre, SmallRange};

use diagrams::{Child, Edge, Operation, Question};
use limits::{Limit, MOST_PARTS};

/// The edge of 1 or 0.
pub fn constant(kept: bool) -> Edge
    ensures { result ≡ constant_edge kept }
{
    Edge::constant(i32::from(kept))
}

// The product where a is the constant 0 or 1.
fn times_known(a: Edge, b: Edge) -> Option<Edge>
    ensures { MatchOption result (a.child ≡ Terminal → Bit a.constant → ⊥) (λ e. Known a b e) }
{
    match (a.child, a.constant) {
        (Child::Terminal, 0) => Some(a),
        (Child::Terminal, 1) => Some(b),
        _ => None,
    }
}

// Whether a comparison holds of two numbers.
fn compared(operation: Operation, a: i32, b: i32) -> Option<bool>
    ensures { result ≡ compared operation a b }
{
    match operation {
        Operation::AtMost => Some(a <= b),
        Operation::AtLeast => Some(a >= b),
        Operation::Times => None,
    }
}

/// The answer where the constants settle it.
pub fn shortcut(q: Question) -> Option<Edge>
    ensures { MatchOption result (Open q) (λ e. Answers q e) }
{
    match (q.operation, q.left.child, q.right.child) {
        (Operation::Times, _, _) => {
            times_known(q.left, q.right).or_else(|| times_known(q.right, q.left))
        }
        (comparison, Child::Terminal, Child::Terminal) => {
            compared(comparison, q.left.constant, q.right.constant).map(constant)
        }
        _ => None,
    }
}

/// The product of an edge with itself, for edges of values 0 and 1.
pub fn square(q: Question) -> Option<Edge>
    ensures { IfSome result (λ e. Squares q e) }
{
    (q.operation == Operation::Times && q.left == q.right).then_some(q.left)
}

// That both ends are small is asked where a range is used, and is no ghost field: the definitions' ranges have any ends.
/// The least and the greatest value of a sum.
#[derive(Clone, Copy, Default, PartialEq, Eq, Debug, Drop)]
pub struct Range {
    low: i32,
    high: i32,
}

impl Range {
    // The range with one coefficient more.
    fn wider(self, coefficient: i32) -> Range
        requires { (SmallRange self) × (unsigned_abs coefficient ≤ 1000000) }
        ensures { result ≡ wider self coefficient }
    {
        if coefficient < 0 {
            Range {
                low: self.low + coefficient,
                ..self
            }
        } else {
            Range {
                high: self.high + coefficient,
                ..self
            }
        }
    }
}

/// The ranges of the sums of the parts from each up.
// Over the parts' numbers: each range is made of the one behind it in the same array, which no iterator over it shows.
pub fn ranges_of(parts: u8, coefficients: &[i32]) -> [Range; MOST_PARTS + 1]
    requires { CanRange parts coefficients.now }
    ensures { RangesAre parts coefficients.now 0 result }
{
    let mut ranges = [Range::default(); MOST_PARTS + 1];
    for part in (0..parts as usize).rev() {
        ranges[part] = ranges[part + 1].wider(coefficients[part]);
    }
    ranges
}

/// The answer to a comparison with a constant, where the left edge's node has a value in g.
pub fn decide(q: Question, g: Range) -> Option<Edge>
    requires { (unsigned_abs q.left.constant ≤ 2 ^ 28) × (SmallRange g) }
    ensures { IfSome result (λ e. Decides q g.low g.high e) }
{
    if q.right.child != Child::Terminal {
        return None;
    }
    let low = compared(q.operation, q.left.constant + g.low, q.right.constant)?;
    let high = compared(q.operation, q.left.constant + g.high, q.right.constant)?;
    (low == high).then_some(constant(low))
}

/// The question whether a sum keeps a limit.
pub fn within_bound(sum: Edge, limit: &Limit) -> Question
    ensures { result ≡ kept_question limit.now sum }
{
    Question {
        operation: limit.sense.into(),
        left: sum,
        right: Edge::constant(limit.bound),
    }
}
