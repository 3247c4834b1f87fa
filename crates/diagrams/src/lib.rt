//! Edge-valued decision diagrams: nodes, edges, and the questions that a walk answers.
#![tactic(auto)]

ghost use Rattle.std.specs.Prelude.{◌≡◌, ◌^◌, ◌≤◌, ◌<◌, ◌+ℤ◌, unsigned_abs};
ghost use Rattle.diagrams.specs.declared.Child.TheVariants.{Terminal};
ghost use Rattle.diagrams.specs.Apply.{child_number, plus_edge, operation_of};

use limits::Sense;

pub mod laws;

/// What an edge leads to: the terminal, or the node at a place of a table.
// Its own enum and no `Option`: the terminal is a child that denotes 0, and not the lack of one.
#[derive(Clone, Copy, Default, PartialEq, Eq, Debug, Drop)]
pub enum Child {
    #[default]
    Terminal,
    Place(u32),
}

impl Child {
    /// The child as a number: 0 for the terminal.
    pub fn number(self) -> usize
        ensures is { result ≡ child_number self }
        ensures small { result ≤ 4294967296 }
    {
        match self {
            Child::Terminal => 0,
            Child::Place(k) => k as usize + 1,
        }
    }
}

/// With x 1 where the part is fitted, the node denotes x(value + left) + (1 - x)right.
#[derive(Clone, Copy, PartialEq, Eq, Debug, Drop)]
pub struct Node {
    pub part: u8,
    pub value: i32,
    pub left: Child,
    pub right: Child,
}

/// The constant and what the child denotes, added up.
// That the constant is small is asked where it is added to, and is no ghost field: `constant` makes an edge of any number.
#[derive(Clone, Copy, Default, PartialEq, Eq, Debug, Drop)]
pub struct Edge {
    pub constant: i32,
    pub child: Child,
}

impl Edge {
    /// The edge that denotes one number at every choice.
    pub fn constant(value: i32) -> Edge
        ensures { result ≡ record { constant = value; child = Terminal } }
    {
        Edge {
            constant: value,
            child: Child::Terminal,
        }
    }
}

/// The edge with a number added to its constant.
// A function beside the type, since makers reach `Edge`, and no call that they reach has a condition.
pub fn plus(edge: Edge, value: i32) -> Edge
    requires { (unsigned_abs edge.constant ≤ 2 ^ 28) × (unsigned_abs value ≤ 2 ^ 29) }
    ensures { result ≡ plus_edge edge value }
{
    Edge {
        constant: edge.constant + value,
        ..edge
    }
}

/// What is asked of two edges: whether one is at most or at least the other, as 1 or 0, or their product.
#[derive(Clone, Copy, Default, PartialEq, Eq, Debug, Drop)]
pub enum Operation {
    #[default]
    AtMost,
    AtLeast,
    Times,
}

impl From<Sense> for Operation {
    ghost from_gives = { λ sense operation. operation ≡ operation_of sense };

    /// The operation that compares a sum with its bound.
    fn from(sense: Sense) -> Operation {
        match sense {
            Sense::AtMost => Operation::AtMost,
            Sense::AtLeast => Operation::AtLeast,
        }
    }
}

/// An operation and its two edges.
#[derive(Clone, Copy, Default, PartialEq, Eq, Debug, Drop)]
pub struct Question {
    pub operation: Operation,
    pub left: Edge,
    pub right: Edge,
}
