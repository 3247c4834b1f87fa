//! The walk over the diagrams that makes one limit more part of a product.
#![tactic(auto)]

ghost use Rattle.std.specs.Prelude.{◌≡◌, ℕ, ◌≤◌, min, ◌⊎◌, List, ℤ, IfSome, MatchOption};
ghost use Rattle.limits.specs.Limits.{sum};
ghost use Rattle.diagrams.specs.Nodes.{From};
ghost use Rattle.diagrams.specs.Apply.{Answers, Open, Asked, AllRight, Settled, Allows};
ghost use Rattle.questions.specs.Products.{Squares};
ghost use Rattle.tables.specs.Chains.{made};
ghost use Rattle.tables.specs.Places.{Table, part_at, CanSettle};
ghost use Rattle.walks.specs.Extended.{Begins, Builds, CanBuild, Built, SoundTable, Extended, Refused};
ghost use Rattle.walks.specs.Stack.{Went, CanOpen};
ghost use Rattle.walks.specs.Looks.{Ranged, CanLook, ByRange};
ghost use Rattle.walks.specs.Walked.{CanAsk, Walked, CanSum, Summed};

use arrayvec::ArrayVec;
use diagrams::{Child, Edge, Operation, Question, plus};
use limits::{Limit, MOST_PARTS};
use memories::Memory;
use questions::{Range, decide, ranges_of, shortcut, square, within_bound};
use tables::NodeTable;

// The least part of the question's nodes.
fn top(table: &NodeTable, q: Question) -> u8
    requires { (From (made table.now) 0 q.left.child) × (From (made table.now) 0 q.right.child) }
    ensures { result ≡ min (part_at (made table.now) q.left.child) (part_at (made table.now) q.right.child) }
{
    table
        .part_of(q.left.child)
        .min(table.part_of(q.right.child))
}

// The answer where the range of what is left of the sum decides the comparison.
fn by_range(table: &NodeTable, ranges: &[Range], q: Question) -> Option<Edge>
    requires { CanLook table.now ranges.now q }
    ensures { IfSome result (λ e. ByRange table.now ranges.now q e) }
{
    match q.left.child {
        Child::Terminal => None,
        Child::Place(_) => decide(q, ranges[table.part_of(q.left.child) as usize]),
    }
}

// An open question: the answer with its part fitted, once it is there, is in fit.
#[derive(Clone, Copy, Default, Drop)]
struct Frame {
    question: Question,
    part: u8,
    fit: Option<Edge>,
}

impl Frame {
    // The question that is left when the part is settled.
    fn settled(self, table: &NodeTable, fitted: bool) -> Question
        requires { (CanSettle table.now self.question.left self.part) × (CanSettle table.now self.question.right self.part) }
        ensures { Settled (made table.now) self.part self.question fitted result }
    {
        Question {
            operation: self.question.operation,
            left: table.settle(self.question.left, self.part, fitted),
            right: table.settle(self.question.right, self.part, fitted),
        }
    }
}

// Opens q: the question with its least part fitted is asked next.
fn open_question(
    table: &NodeTable,
    stack: &mut ArrayVec<Frame, MOST_PARTS>,
    q: Question,
) -> Question
    requires { CanOpen table.now stack.old.items q }
    ensures { Went table.now q stack.old.items stack.new.items result }
{
    let opened = Frame {
        question: q,
        part: top(table, q),
        fit: None,
    };
    stack.push(opened);
    opened.settled(table, true)
}

// The answer where the question itself or the ranges settle it, or the one that is remembered.
fn look_up<M: Memory>(table: &NodeTable, ranges: &[Range], q: Question, memory: &M) -> Option<Edge>
    requires { CanLook table.now ranges.now q }
    ensures { MatchOption result (Open q) (λ e. Answers q e ⊎ (Squares q e ⊎ (M.holds memory.now q e ⊎ ByRange table.now ranges.now q e))) }
{
    // No chain of `or_else`: nothing is known of what a closure answers that calls `by_range`, which asks for `CanLook`.
    if let Some(e) = shortcut(q) {
        return Some(e);
    }
    if let Some(e) = square(q) {
        return Some(e);
    }
    if let Some(e) = by_range(table, ranges, q) {
        return Some(e);
    }
    memory.ask(&q)
}

// The answer to root, by a loop with a stack of open questions.
// While there is no answer, q is asked; an answer goes to the question on top of the stack, and is the walk's where none is open.
// Table, parts, ranges and memory are no struct: each method on it would also have to say that the ranges and the lent table stay the same.
fn walk<M: Memory>(
    table: &mut NodeTable,
    parts: u8,
    ranges: &[Range],
    root: Question,
    memory: &mut M,
) -> Option<Edge>
    requires few { parts ≤ 48 }
    requires can { CanAsk parts table.old 0 root }
    requires ranged { Ranged parts (made table.old) ranges.now root }
    requires right { AllRight M.holds memory.old parts (made table.old) }
    ensures done { (ts : List (List ℤ)) → Table parts ts table.old → Asked parts (made table.old) ts 0 root → Walked parts ts table.old table.new root result }
    ensures right { AllRight M.holds memory.new parts (made table.new) }
{
    let mut stack: ArrayVec<Frame, MOST_PARTS> = ArrayVec::new();
    let mut q = root;
    let mut answer: Option<Edge> = None;
    loop {
        let Some(e) = answer else {
            answer = look_up(table, ranges, q, memory);
            if answer.is_none() {
                q = open_question(table, &mut stack, q);
            }
            continue;
        };
        let Some(f) = stack.pop() else {
            return Some(e);
        };
        let Some(fit) = f.fit else {
            q = f.settled(table, false);
            stack.push(Frame { fit: Some(e), ..f });
            answer = None;
            continue;
        };
        let made = table.make(f.part, fit, e)?;
        memory.note(f.question, made);
        q = f.question;
        answer = Some(made);
    }
}

// The sum, without a bound.
// Over the parts' numbers, since the table makes the node of a part by its number.
fn chain(table: &mut NodeTable, parts: u8, coefficients: &[i32]) -> Option<Edge>
    requires { CanSum parts table.old coefficients.now }
    ensures { (ts : List (List ℤ)) → Table parts ts table.old → Allows ts parts (sum coefficients.now) → Summed parts ts table.old table.new coefficients.now result }
{
    let mut e = Edge::constant(0);
    for part in (0..parts).rev() {
        let fit = plus(e, coefficients[part as usize]);
        e = table.make(part, fit, e)?;
    }
    Some(e)
}

// Makes the limit's sum, its test and the product, in this order.
// What it shares with `extend` is no struct: only these two have it, and their contracts speak of each of the five alone.
fn build<M: Memory>(
    table: &mut NodeTable,
    parts: u8,
    product: Edge,
    limit: &Limit,
    memory: &mut M,
) -> Option<Edge>
    requires begins { Begins parts table.old product limit.now }
    requires can { CanBuild parts table.old product limit.now }
    ensures { (ts : List (List ℤ)) → Builds parts ts table.old product limit.now → Built parts ts table.old table.new product limit.now result }
{
    memory.empty();
    let sum = chain(table, parts, &limit.coefficients)?;
    let ranges = ranges_of(parts, &limit.coefficients);
    let kept = walk(table, parts, &ranges, within_bound(sum, limit), memory)?;
    let last = Question {
        operation: Operation::Times,
        left: product,
        right: kept,
    };
    walk(table, parts, &ranges, last, memory)
}

/// The edge of the product with one limit more, or none where the table has too few places; its nodes are then as they were.
pub fn extend<M: Memory>(
    table: &mut NodeTable,
    parts: u8,
    product: Edge,
    limit: &Limit,
    memory: &mut M,
) -> Option<Edge>
    requires begins { Begins parts table.old product limit.now }
    requires table { SoundTable parts table.old }
    ensures { MatchOption result (Refused parts table.old table.new product limit.now) (λ e. Extended parts table.old table.new product limit.now e) }
{
    let before = table.used();
    let extended = build(table, parts, product, limit, memory);
    if extended.is_none() {
        table.truncate(before);
    }
    extended
}
