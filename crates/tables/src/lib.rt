//! A table of diagram nodes over lent places, in which equal nodes are found by their hashes.
#![tactic(auto)]

ghost use Rattle.std.specs.Prelude.{◌≡◌, ℕ, ◌+◌, ◌^◌, ◌<◌, ◌≤◌, true, min, List, [], ◌∷◌, ◌++◌, length, take, ℤ, Some, MatchOption, ◌≢◌, unsigned_abs};
ghost use Rattle.std.specs.List.{slice_get};
ghost use Rattle.diagrams.specs.Apply.{node_of, edge_to, fitted_edge, left_out_edge};
ghost use Rattle.tables.specs.Buckets.{hashed, nodes_of, Clear, PlacesFit};

use diagrams::{Child, Edge, Node, plus};

// Only so many places of a table count.
const ROOM: usize = 60_000;

// The part that the terminal counts as: later than every part, so that the least of two children's parts is the earlier one.
const TERMINAL_PART: u8 = u8::MAX;

/// A node with the link to the last earlier one of its bucket, and the link to the last one of the bucket of this place's number.
// A link is one more than a place, or 0 for none: an `Option<u32>` takes eight bytes in place of four, and the places are lent memory.
#[derive(Clone, Copy, PartialEq, Eq, Debug, Drop)]
pub struct Place {
    node: Node,
    next: u32,
    head: u32,
}

impl Place {
    /// A place that holds nothing yet.
    pub const EMPTY: Place = Place {
        node: Node {
            part: 0,
            value: 0,
            left: Child::Terminal,
            right: Child::Terminal,
        },
        next: 0,
        head: 0,
    };
}

/// The nodes that stand in the first used ones of the lent places.
// The count stands beside the places and is no list's own: the places are lent, so the table can have no list of its own.
#[derive(Drop)]
pub struct NodeTable<'a> {
    places: &'a mut [Place],
    used: usize,
    ghost fits: { PlacesFit places.now used },
}

// The bucket of a node.
// By hand and by no derived `Hash`: the definition of the bucket gives this number, and a hasher over the fields would give another.
#[tactic(auto, unfolding(crate::specs::Buckets::hashed))]
fn hash(node: Node, buckets: usize) -> usize
    requires { 0 < buckets }
    ensures is { result ≡ hashed buckets node }
    ensures below { result < buckets }
{
    let value = node.value.unsigned_abs() as usize;
    (node.left.number() * 97_787_311
        + node.right.number() * 161_800_127
        + value * 57_721_583
        + node.part as usize)
        % buckets
}

// Empties all buckets.
fn empty_buckets(places: &mut [Place])
    ensures clear { Clear places.new }
    ensures length { length places.new ≡ length places.old }
{
    for place in places.iter_mut() {
        place.head = 0;
    }
}

// Puts a node into the first place that is not used, as the last one of its bucket.
fn append(places: &mut [Place], used: usize, node: Node)
    requires fits { PlacesFit places.old used }
    requires left { used < min (length places.old) 60000 }
    ensures fits { PlacesFit places.new (used + 1) }
    ensures length { length places.new ≡ length places.old }
    ensures nodes { nodes_of (take (used + 1) places.new) ≡ nodes_of (take used places.old) ++ node ∷ [] }
{
    let bucket = hash(node, places.len());
    places[used] = Place {
        node,
        next: places[bucket].head,
        ..places[used]
    };
    places[bucket].head = (used + 1) as u32;
}

// Takes the node of the last used place out of its bucket.
fn unlink(places: &mut [Place], last: usize)
    requires { PlacesFit places.old (last + 1) }
    ensures fits { PlacesFit places.new last }
    ensures length { length places.new ≡ length places.old }
    ensures nodes { nodes_of places.new ≡ nodes_of places.old }
{
    let Place { node, next, .. } = places[last];
    let bucket = hash(node, places.len());
    places[bucket].head = next;
}

// Each call that changes a table says that its room stays, since a contract leaves open what it does not name.
impl<'a> NodeTable<'a> {
    ghost use Rattle.diagrams.specs.Nodes.{From, Sound};
    ghost use Rattle.diagrams.specs.Apply.{Makes, Cofactor};
    ghost use Rattle.tables.specs.Buckets.{node_at};
    ghost use Rattle.tables.specs.Chains.{made, room};
    ghost use Rattle.tables.specs.Places.{Table, part_at, CanMake, Made, CanSettle, OneFunction};

    /// A table without nodes over the places.
    pub fn over(places: &'a mut [Place]) -> NodeTable<'a>
        ensures used { result.used ≡ 0 }
        ensures none { made result ≡ [] }
        ensures places { length result.places.now ≡ length places.old }
    {
        empty_buckets(places);
        NodeTable { places, used: 0 }
    }

    /// How many nodes the table has.
    pub fn used(&self) -> usize
        ensures used { result ≡ self.now.used }
        ensures nodes { result ≡ length (made self.now) }
    {
        self.used
    }

    /// The node at a place.
    pub fn node(&self, k: usize) -> Node
        requires { k < length (made self.now) }
        ensures { slice_get (made self.now) k ≡ Some result }
    {
        self.places[k].node
    }

    // The place of a node, if it stands.
    // A loop over links and no iterator: each link is read off the place that the one before it leads to.
    fn find(&self, node: Node) -> Option<usize>
        ensures { MatchOption result ((k : ℕ) → k < self.now.used → node_at self.now.places.now k ≢ node) (λ i. (i < self.now.used) × (node_at self.now.places.now i ≡ node)) }
    {
        if self.places.is_empty() {
            return None;
        }
        let mut link = self.places[hash(node, self.places.len())].head as usize;
        while let Some(k) = link.checked_sub(1) {
            let place = self.places[k];
            if place.node == node {
                return Some(k);
            }
            link = place.next as usize;
        }
        None
    }

    // Puts a node into the next place, if there is one left.
    fn push(&mut self, node: Node) -> Option<usize>
        ensures places { room self.new ≡ room self.old }
        ensures done { MatchOption result ((self.old.used ≡ room self.old) × (made self.new ≡ made self.old)) (λ i. (i ≡ self.old.used) × (i < 60000) × (made self.new ≡ made self.old ++ node ∷ [])) }
    {
        let i = self.used;
        if i >= ROOM || i >= self.places.len() {
            return None;
        }
        append(self.places, i, node);
        self.used = i + 1;
        Some(i)
    }

    /// Keeps the first `to` nodes.
    // A loop over places from the last one down, since only the newest node of a bucket can be taken out of it.
    pub fn truncate(&mut self, to: usize)
        requires { to ≤ self.old.used }
        ensures places { room self.new ≡ room self.old }
        ensures done { made self.new ≡ take to (made self.old) }
    {
        for last in (to..self.used).rev() {
            unlink(self.places, last);
            self.used = last;
        }
    }

    /// Drops all nodes.
    pub fn clear(&mut self)
        ensures places { room self.new ≡ room self.old }
        ensures none { made self.new ≡ [] }
    {
        self.truncate(0);
    }

    /// The edge of the node of a part that goes on with fit or out: one that stands or is made, or none where no place is left.
    pub fn make(&mut self, part: u8, fit: Edge, out: Edge) -> Option<Edge>
        requires { CanMake self.old part fit out }
        ensures { (parts : ℕ) (ts : List (List ℤ)) → Table parts ts self.old → Makes parts (made self.old) ts part fit out → Made parts ts self.old self.new part fit out result }
    {
        if fit == out {
            return Some(fit);
        }
        let node = node_of(part, fit, out);
        if let Some(k) = self.find(node) {
            return Some(edge_to(out, k));
        }
        let k = self.push(node)?;
        Some(edge_to(out, k))
    }

    /// Whether two edges of a sound table denote one function, which is whether they are equal: a theorem, which this contract states.
    pub fn same(&self, a: Edge, b: Edge) -> bool
        ensures equal { (result ≡ true → a ≡ b) × (a ≡ b → result ≡ true) }
        ensures functions { (parts : ℕ) → Sound parts (made self.now) → From (made self.now) 0 a.child × From (made self.now) 0 b.child → (result ≡ true → OneFunction parts (made self.now) a b) × (OneFunction parts (made self.now) a b → result ≡ true) }
    {
        a == b
    }

    /// The part of a node, and 255 for the terminal.
    pub fn part_of(&self, at: Child) -> u8
        requires { From (made self.now) 0 at }
        ensures { result ≡ part_at (made self.now) at }
    {
        match at {
            Child::Terminal => TERMINAL_PART,
            Child::Place(k) => self.places[k as usize].node.part,
        }
    }

    /// What is left of an edge when a part is settled.
    pub fn settle(&self, edge: Edge, part: u8, fitted: bool) -> Edge
        requires { CanSettle self.now edge part }
        ensures { Cofactor (made self.now) part edge fitted result }
    {
        let Child::Place(k) = edge.child else {
            return edge;
        };
        let node = self.places[k as usize].node;
        if node.part != part {
            return edge;
        }
        if fitted {
            fitted_edge(edge, node)
        } else {
            left_out_edge(edge, node)
        }
    }
}

// The node of a part that goes on with fit or out.
fn node_of(part: u8, fit: Edge, out: Edge) -> Node
    requires { (unsigned_abs fit.constant ≤ 2 ^ 28) × (unsigned_abs out.constant ≤ 2 ^ 28) }
    ensures { result ≡ node_of part fit out }
{
    Node {
        part,
        value: fit.constant - out.constant,
        left: fit.child,
        right: out.child,
    }
}

// The edge to that node at the place k.
fn edge_to(out: Edge, k: usize) -> Edge
    requires { k < 60000 }
    ensures { result ≡ edge_to out k }
{
    Edge {
        child: Child::Place(k as u32),
        ..out
    }
}

// What is left of an edge to a node when its part is fitted.
fn fitted_edge(edge: Edge, node: Node) -> Edge
    requires { (unsigned_abs edge.constant ≤ 2 ^ 28) × (unsigned_abs node.value ≤ 2 ^ 29) }
    ensures { result ≡ fitted_edge edge node }
{
    Edge {
        child: node.left,
        ..plus(edge, node.value)
    }
}

// What is left of an edge to a node when its part is left out.
fn left_out_edge(edge: Edge, node: Node) -> Edge
    ensures { result ≡ left_out_edge edge node }
{
    Edge {
        child: node.right,
        ..edge
    }
}
