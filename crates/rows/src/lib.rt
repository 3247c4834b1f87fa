//! The best grades of the later parts, one row a node.
#![tactic(auto)]

ghost use Rattle.std.specs.Prelude.{◌≡◌, ℕ, suc, ◌<◌, ◌≤◌, map, length, ◌+ℤ◌, if◌then◌else◌, Some, None, slice_set};
ghost use Rattle.std.specs.List.{slice_get};
ghost use Rattle.diagrams.specs.Apply.{Bit};
ghost use Rattle.diagrams.specs.Needs.{indicator};
ghost use Rattle.diagrams.specs.Nodes.{Under};
ghost use Rattle.tables.specs.Chains.{made};
ghost use Rattle.rows.specs.Ones.{bit_edge};
ghost use Rattle.rows.specs.Bests.{mapped, better_of, Put, Weighed, Ready, row_at, no_row, RightRows, Tells, Lifts, Tops, NodeBest, RowBest};
ghost use Rattle.rows.specs.Readied.{ready_prop};

use diagrams::{Child, Edge, Node};
use grades::Grade;
pub use lent::RowTables;
use tables::NodeTable;

mod lent;

/// The best grade of the parts from a node's up, where the edge to it has the constant 0, and where it has 1.
#[derive(Clone, Copy)]
pub struct Row<G> {
    pub zero: Option<G>,
    pub one: Option<G>,
}

impl<G> Row<G> {
    /// A row with no grade.
    pub const EMPTY: Row<G> = Row {
        zero: None,
        one: None,
    };
}

impl<G: Grade> Row<G> {
    // The best grade for an edge whose constant is 1 or 0.
    fn grade(self, one: bool) -> Option<G>
        ensures { result ≡ row_at self one }
    {
        if one { self.one } else { self.zero }
    }
}

/// Lent rows, one for each node.
#[derive(Drop)]
pub struct Rows<'a, G> {
    rows: &'a mut [Row<G>],
}

impl<'a, G: Grade> Rows<'a, G> {
    /// Rows over a lent slice.
    pub fn new(rows: &'a mut [Row<G>]) -> Rows<'a, G>
        ensures value { result.rows.now ≡ rows.old }
        ensures named { result.rows.ghost_name ≡ rows.entry.ghost_name }
    {
        Rows { rows }
    }

    /// How many rows there are.
    pub fn len(&self) -> usize
        ensures { result ≡ length self.now.rows.now }
    {
        self.rows.len()
    }

    // Fills row i.
    fn set(&mut self, i: usize, row: Row<G>)
        requires { i < length self.old.rows.now }
        ensures value { self.new.rows.now ≡ slice_set self.old.rows.now i row }
        ensures named { self.new.rows.ghost_name ≡ self.old.rows.ghost_name }
    {
        self.rows[i] = row;
    }

    /// The rows, to read.
    pub fn shown(&self) -> &[Row<G>]
        ensures { result.now ≡ self.now.rows.now }
    {
        &*self.rows
    }
}

/// Fills one row for each node, in the order of their places.
// A function and no method: makers reach `Rows`, and no call that they reach has a condition.
pub fn fill<'t, G: Grade>(rows: &mut Rows<G>, table: &'t NodeTable<'t>, weights: &'t [G::Weight])
    requires ready { Ready G.kind (map G.weighs weights.now) (made table.now) }
    requires enough { length (made table.now) ≤ length rows.old.rows.now }
    ensures right { RightRows G.kind G.means (map G.weighs weights.now) (made table.now) rows.new.rows.now (length (made table.now)) }
    ensures named { rows.new.rows.ghost_name ≡ rows.old.rows.ghost_name }
    ensures kept { length rows.new.rows.now ≡ length rows.old.rows.now }
{
    // By the place's number, since a row is read off the rows before it, and is put at the same place.
    for k in 0..table.used() {
        let reading = Reading {
            table,
            weights,
            rows: rows.shown(),
        };
        let row = reading.row(k);
        rows.set(k, row);
    }
}

/// An edge whose constant is 1 or 0.
// Beside `Edge`, with steps of its own: a row keeps one grade for each of the two constants, so the constant is a truth here.
#[derive(Clone, Copy, Drop)]
pub struct BitEdge {
    pub one: bool,
    pub child: Child,
}

impl BitEdge {
    /// The edge that goes on from a node whose part is fitted, where the edge to it has the constant 1 or 0.
    pub fn fitted(one: bool, node: Node) -> BitEdge
        ensures child { result.child ≡ node.left }
        ensures constant { Bit (indicator one +ℤ node.value) → indicator result.one ≡ indicator one +ℤ node.value }
    {
        BitEdge {
            one: if node.value == 0 { one } else { !one },
            child: node.left,
        }
    }

    /// The same where the part is left out.
    pub fn left_out(one: bool, node: Node) -> BitEdge
        ensures { result ≡ record { one = one; child = node.right } }
    {
        BitEdge {
            one,
            child: node.right,
        }
    }
}

impl From<Edge> for BitEdge {
    ghost from_gives = { λ edge bit. bit ≡ bit_edge edge };

    /// The edge with its constant as a bool.
    fn from(edge: Edge) -> BitEdge {
        BitEdge {
            one: edge.constant == 1,
            child: edge.child,
        }
    }
}

// The part from which a best grade is known, and that grade; the part is meant where the grade is missing too.
struct Top<G> {
    part: usize,
    best: Option<G>,
}

// The better of two, the first where they rank alike.
fn better<G: Grade>(a: Option<G>, b: Option<G>) -> Option<G>
    ensures { result ≡ better_of G.kind G.means a b }
{
    match (a, b) {
        (Some(x), Some(y)) => Some(if x.ranks_no_later(&y) { x } else { y }),
        (a, b) => a.or(b),
    }
}

/// The weight joined with a best grade, missing where that is.
pub fn put_on<G: Grade>(weight: &G, best: Option<G>) -> Option<G>
    ensures { Put G.kind G.means (G.means weight.now) best result }
{
    best.map(|grade| weight.join(&grade))
}

// The best grade at the terminal: the empty one, or none.
fn terminal_grade<G: Grade>(one: bool) -> Option<G>
    ensures { mapped G.means result ≡ (if one then Some G.kind.empty else None) }
{
    // An `if`, so that a maker's empty grade is made only where it is wanted.
    if one { Some(G::empty()) } else { None }
}

/// The grade that part i weighs.
pub fn grade_at<G: Grade>(weights: &[G::Weight], i: usize) -> G
    requires weighed { Weighed G.kind (map G.weighs weights.now) }
    requires low { i < length (map G.weighs weights.now) }
    ensures { slice_get (map G.weighs weights.now) i ≡ Some (G.means result) }
{
    G::of_weight(&weights[i]).unwrap()
}

/// A node table with the weights of its parts and the rows that are filled, to read best grades from.
#[derive(Drop)]
pub struct Reading<'t, 'r, G: Grade> {
    pub table: &'t NodeTable<'t>,
    pub weights: &'t [G::Weight],
    pub rows: &'r [Row<G>],
    ghost ready: { Ready G.kind (map G.weighs weights.now) (made table.now) } by { ready_prop G.kind (map G.weighs weights.now) (made table.now) },
}

impl<'t, 'r, G: Grade> Reading<'t, 'r, G> {
    // The best grade at the node that the edge leads to, from its part up; at the terminal, with no part left.
    fn top(&self, edge: BitEdge) -> Top<G>
        requires { Under (made self.now.table.now) 0 (length self.now.rows.now) edge.child }
        ensures { Tops G.kind G.means (map G.weighs self.now.weights.now) (made self.now.table.now) self.now.rows.now edge.one edge.child result }
    {
        match edge.child {
            Child::Terminal => Top {
                part: self.weights.len(),
                best: terminal_grade(edge.one),
            },
            Child::Place(k) => {
                let k = k as usize;
                Top {
                    part: self.table.node(k).part as usize,
                    best: self.rows[k].grade(edge.one),
                }
            }
        }
    }

    // What is best from one part up, from an earlier part up, where the diagram skips the parts between: each is weighed.
    fn lifted(&self, best: Option<G>, from: usize, to: usize) -> Option<G>
        requires falls { to ≤ from }
        requires low { from ≤ length (map G.weighs self.now.weights.now) }
        ensures { Lifts G.kind G.means (map G.weighs self.now.weights.now) from to best result }
    {
        let mut best = best;
        // Over the parts' numbers and not over the weights, since `grade_at` reads a part's grade by its number.
        for j in (to..from).rev() {
            let weight: G = grade_at(self.weights, j);
            best = better(best, put_on(&weight, best));
        }
        best
    }

    /// The best grade of the parts from i up, at the edge.
    pub fn best(&self, edge: BitEdge, i: usize) -> Option<G>
        requires low { i ≤ length (map G.weighs self.now.weights.now) }
        requires under { Under (made self.now.table.now) i (length self.now.rows.now) edge.child }
        ensures { Tells G.kind G.means (map G.weighs self.now.weights.now) (made self.now.table.now) self.now.rows.now i edge.one edge.child result }
    {
        let Top { part, best } = self.top(edge);
        self.lifted(best, part, i)
    }

    // The best grade at a node, where the edge to it has the constant 1 or 0.
    fn node_best(&self, node: Node, one: bool) -> Option<G>
        requires low { node.part < length (map G.weighs self.now.weights.now) }
        requires left { Under (made self.now.table.now) (suc node.part) (length self.now.rows.now) node.left }
        requires right { Under (made self.now.table.now) (suc node.part) (length self.now.rows.now) node.right }
        ensures { NodeBest G.kind G.means (map G.weighs self.now.weights.now) (made self.now.table.now) self.now.rows.now node one result }
    {
        let i = node.part as usize;
        let out = self.best(BitEdge::left_out(one, node), i + 1);
        let fitted = self.best(BitEdge::fitted(one, node), i + 1);
        let weight: G = grade_at(self.weights, i);
        better(out, put_on(&weight, fitted))
    }

    // The row of the node at the place k.
    fn row(&self, k: usize) -> Row<G>
        requires low { k < length (made self.now.table.now) }
        requires enough { k ≤ length self.now.rows.now }
        ensures { RowBest G.kind G.means (map G.weighs self.now.weights.now) (made self.now.table.now) self.now.rows.now k result }
    {
        let node = self.table.node(k);
        let zero = self.node_best(node, false);
        let one = self.node_best(node, true);
        Row { zero, one }
    }
}
