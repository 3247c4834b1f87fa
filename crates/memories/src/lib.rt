//! Tables that remember the results of questions, and may forget them.
#![tactic(auto)]

ghost use Rattle.std.specs.Prelude.{◌≡◌, ◌%◌, ◌<◌, ◌⊎◌, ◌≢◌, [], length, Some, MatchOption, SomeIff, All, AllPairs, Contains, slice_set};
ghost use Rattle.std.specs.List.{HoldsAt};
ghost use Rattle.diagrams.specs.declared.Edge.{Edge};
ghost use Rattle.diagrams.specs.declared.Question.{Question};
ghost use Rattle.memories.specs.Held.{edge_hash, question_hash, pair, InSlot, Written};

use arrayvec::ArrayVec;
use diagrams::{Edge, Question};

/// A remembering table: it means the set of the pairs of a question and its result that it holds now.
pub trait Memory {
    // Holds of a table, a question and the result that the table has for it.
    ghost holds: { Self → Question → Edge → Type 0 };

    /// The result of a question, if the table holds it; it holds at most one.
    fn ask(&self, q: &Question) -> Option<Edge>
        ensures result { MatchOption result ((e : Edge) → holds self.now q.now e → ⊥) (λ e. holds self.now q.now e) }
        ensures once { (e f : Edge) → holds self.now q.now e → holds self.now q.now f → e ≡ f };

    /// Every pair that is held afterwards was held before or is this one.
    fn note(&mut self, q: Question, e: Edge)
        ensures old { (p : Question) (f : Edge) → holds self.new p f → holds self.old p f ⊎ ((p ≡ q) × (f ≡ e)) };

    /// No pair is held afterwards.
    fn empty(&mut self)
        ensures { (p : Question) (f : Edge) → holds self.new p f → ⊥ };
}

/// A table that holds nothing.
#[derive(Clone, Copy, Default, PartialEq, Eq, Debug, Drop)]
pub struct NoMemory {}

impl NoMemory {
    /// The table that holds nothing.
    pub fn new() -> NoMemory {
        NoMemory {}
    }
}

impl Memory for NoMemory {
    ghost holds = { λ _ _ _. ⊥ };

    fn ask(&self, _q: &Question) -> Option<Edge> {
        None
    }

    fn note(&mut self, _q: Question, _e: Edge) {}

    fn empty(&mut self) {}
}

/// A question and its result.
#[derive(Clone, Copy, Default, PartialEq, Eq, Debug, Drop)]
pub struct Remembered {
    question: Question,
    edge: Edge,
}

// An edge as a number, for the slot of a question.
// By hand and by no derived `Hash`: the definition of the slot gives this number, and a hasher over the fields would give another.
fn edge_hash(edge: Edge) -> usize
    ensures is { result ≡ edge_hash edge }
    ensures small { result < 14000000000000000 }
{
    edge.child.number() * 1_618_033 + edge.constant.unsigned_abs() as usize * 2_718_281
}

// The slot of a question, where there is any.
fn slot(q: &Question, slots: usize) -> Option<usize>
    ensures { SomeIff result (0 < slots) (question_hash q.now % slots) }
{
    (edge_hash(q.left) + edge_hash(q.right) * 577 + q.operation as usize).checked_rem(slots)
}

/// A table with a slot picked from the question, over lent slots.
#[derive(Drop)]
pub struct Slots<'a> {
    slots: &'a mut [Option<Remembered>],
}

impl<'a> Slots<'a> {
    /// A table over the slots, with what stands in them.
    pub fn over(slots: &'a mut [Option<Remembered>]) -> Slots<'a>
        ensures { result.slots.now ≡ slots.old }
    {
        Slots { slots }
    }
}

impl<'a> Memory for Slots<'a> {
    ghost holds = { λ s q e. InSlot s.slots.now q e };

    fn ask(&self, q: &Question) -> Option<Edge> {
        let i = slot(q, self.slots.len())?;
        let remembered = self.slots[i].filter(|remembered| remembered.question == *q)?;
        Some(remembered.edge)
    }

    /// The pair takes the slot of its question.
    fn note(&mut self, q: Question, e: Edge)
        ensures old { (p : Question) (f : Edge) → InSlot self.new.slots.now p f → InSlot self.old.slots.now p f ⊎ ((p ≡ q) × (f ≡ e)) }
        ensures slots { self.new.slots.now ≡ slice_set self.old.slots.now (question_hash q % length self.old.slots.now) (Some (pair q e)) }
    {
        if let Some(i) = slot(&q, self.slots.len()) {
            self.slots[i] = Some(Remembered {
                question: q,
                edge: e,
            });
        }
    }

    fn empty(&mut self) {
        self.slots.fill(None);
    }
}

/// A table of the latest 64 pairs, the oldest place first.
#[derive(Drop)]
pub struct Latest {
    pairs: ArrayVec<Remembered, 64>,
    ghost once: { AllPairs (λ x y. x.question ≢ y.question) pairs.items },
}

// The place of a question among the pairs.
fn place(pairs: &[Remembered], q: &Question) -> Option<usize>
    ensures { MatchOption result (All (λ x. x.question ≢ q.now) pairs.now) (λ i. (i < length pairs.now) × HoldsAt (λ x. x.question ≡ q.now) pairs.now i) }
{
    pairs
        .iter()
        .position(|remembered| remembered.question == *q)
}

impl Latest {
    /// A table that holds no pair yet.
    pub fn new() -> Latest
        ensures { result.pairs.items ≡ [] }
    {
        Latest {
            pairs: ArrayVec::new(),
        }
    }
}

impl Memory for Latest {
    ghost holds = { λ s q e. Contains s.pairs.items (pair q e) };

    fn ask(&self, q: &Question) -> Option<Edge> {
        let i = place(&self.pairs, q)?;
        Some(self.pairs[i].edge)
    }

    /// The pair takes the place of its question, or else stands behind the others, and the oldest of 64 goes.
    fn note(&mut self, q: Question, e: Edge)
        ensures old { (p : Question) (f : Edge) → Contains self.new.pairs.items (pair p f) → Contains self.old.pairs.items (pair p f) ⊎ ((p ≡ q) × (f ≡ e)) }
        ensures written { Written self.old.pairs.items q e self.new.pairs.items }
    {
        let pair = Remembered {
            question: q,
            edge: e,
        };
        match place(&self.pairs, &q) {
            Some(i) => {
                self.pairs[i] = pair;
            }
            None => {
                if self.pairs.is_full() {
                    self.pairs.remove(0);
                }
                self.pairs.push(pair);
            }
        }
    }

    fn empty(&mut self) {
        *self = Latest::new();
    }
}
