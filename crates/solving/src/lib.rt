//! The rule's choice and its grade, read off a diagram that denotes 1 where all limits are kept, and 0 elsewhere.
#![tactic(auto)]

ghost use Rattle.std.specs.Prelude.{◌≡◌, ℕ, ◌+◌, ◌*◌, ◌^◌, ◌<◌, ◌≤◌, map, length, if◌then◌else◌};
ghost use Rattle.limits.specs.Choices.{word};
ghost use Rattle.grades.specs.Rule.{chosen, left_out};
ghost use Rattle.diagrams.specs.Nodes.{Under};
ghost use Rattle.tables.specs.Chains.{made};
ghost use Rattle.rows.specs.Ones.{ones, ones_of, BitsOf};
ghost use Rattle.rows.specs.Bests.{mapped, Ready};
ghost use Rattle.solving.specs.Settling.{Solved, Filled, StandsAt, Turns, Settles};

use diagrams::{Child, Edge};
use grades::Grade;
use limits::Choice;
use rows::{BitEdge, Reading, Rows, fill, grade_at, put_on};
use tables::NodeTable;

/// A choice with its grade.
#[derive(Clone, Copy, PartialEq, Eq, Debug)]
pub struct Answer<G> {
    pub choice: Choice,
    pub grade: G,
}

// Whether a part is fitted, and the edge that goes on from there, which is meant in both cases.
#[derive(Clone, Copy, Drop)]
struct Settled {
    fitted: bool,
    next: BitEdge,
}

// The edge after part i is fitted, or left out. Beside the node table's `settle`, whose edges have whole numbers where these have a truth.
fn turned(table: &NodeTable, edge: BitEdge, i: usize, fitted: bool) -> BitEdge
    requires { Under (made table.now) i (length (made table.now)) edge.child }
    ensures { Turns (made table.now) i edge.one edge.child fitted result.one result.child }
{
    let Child::Place(k) = edge.child else {
        return edge;
    };
    let node = table.node(k as usize);
    if node.part as usize != i {
        return edge;
    }
    if fitted {
        BitEdge::fitted(edge.one, node)
    } else {
        BitEdge::left_out(edge.one, node)
    }
}

// Whether a part is left out: the best grade without it exists, and the best with it is missing or ranks no earlier.
fn stays_out<G: Grade>(without: Option<G>, with: Option<G>) -> bool
    ensures { result ≡ left_out G.kind (mapped G.means without) (mapped G.means with) }
{
    match (without, with) {
        (Some(a), Some(b)) => a.ranks_no_later(&b),
        (without, _) => without.is_some(),
    }
}

// Settles part i by the best grades of the later parts.
fn settle<G: Grade>(reading: &Reading<G>, edge: BitEdge, i: usize) -> Settled
    requires filled { Filled G.kind G.means (map G.weighs reading.now.weights.now) (made reading.now.table.now) reading.now.rows.now }
    requires low { i < length (map G.weighs reading.now.weights.now) }
    requires stands { StandsAt (made reading.now.table.now) (length (map G.weighs reading.now.weights.now)) i edge.one edge.child }
    ensures { Settles G.kind (map G.weighs reading.now.weights.now) (made reading.now.table.now) i edge.one edge.child result }
{
    let out = turned(reading.table, edge, i, false);
    let fit = turned(reading.table, edge, i, true);
    let weight: G = grade_at(reading.weights, i);
    let without = reading.best(out, i + 1);
    let with = put_on(&weight, reading.best(fit, i + 1));
    if stays_out(without, with) {
        Settled {
            fitted: false,
            next: out,
        }
    } else {
        Settled {
            fitted: true,
            next: fit,
        }
    }
}

// The word of a choice among the first i parts with the bit of part i.
fn with_bit(choice: u64, i: usize, fitted: bool) -> u64
    requires low { i < 48 }
    requires below { choice < 2 ^ i }
    ensures { result ≡ choice + 2 ^ i * (if fitted then 1 else 0) }
{
    if fitted { choice | 1 << i } else { choice }
}

// The choice's word, read off from part 0 up.
fn word_of<G: Grade>(reading: &Reading<G>, start: BitEdge) -> u64
    requires filled { Filled G.kind G.means (map G.weighs reading.now.weights.now) (made reading.now.table.now) reading.now.rows.now }
    requires stands { StandsAt (made reading.now.table.now) (length (map G.weighs reading.now.weights.now)) 0 start.one start.child }
    ensures { result ≡ word (chosen G.kind (map G.weighs reading.now.weights.now) (ones (made reading.now.table.now) 0 start.one start.child)) }
{
    let mut edge = start;
    let mut choice = 0;
    // Over the parts' numbers and not over the weights, since a part's number settles it, and is its bit.
    for i in 0..reading.weights.len() {
        let Settled { fitted, next } = settle(reading, edge, i);
        choice = with_bit(choice, i, fitted);
        edge = next;
    }
    choice
}

/// The rule's choice among those at which the root denotes 1, with its grade; nothing where it denotes 0 everywhere.
pub fn solve<'t, G: Grade>(
    table: &'t NodeTable<'t>,
    root: Edge,
    weights: &'t [G::Weight],
    rows: &mut Rows<G>,
) -> Option<Answer<G>>
    requires ready { Ready G.kind (map G.weighs weights.now) (made table.now) }
    requires enough { length (made table.now) ≤ length rows.old.rows.now }
    requires under { Under (made table.now) 0 (length (made table.now)) root.child }
    requires bits { BitsOf (made table.now) (length (map G.weighs weights.now)) 0 root.constant root.child }
    ensures solved { Solved G.kind G.means (map G.weighs weights.now) (ones_of (made table.now) 0 root.constant root.child) result }
    ensures named { rows.new.rows.ghost_name ≡ rows.old.rows.ghost_name }
    ensures kept { length rows.new.rows.now ≡ length rows.old.rows.now }
{
    fill(rows, table, weights);
    let reading = Reading {
        table,
        weights,
        rows: rows.shown(),
    };
    let start = BitEdge::from(root);
    let grade = reading.best(start, 0)?;
    let choice = Choice(word_of(&reading, start));
    Some(Answer { choice, grade })
}
