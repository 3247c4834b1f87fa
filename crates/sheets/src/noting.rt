//! Parts are noted.
ghost use Rattle.std.specs.Prelude.{◌≡◌, ◌<◌, ◌≤◌, [], ◌∷◌, ◌++◌, length};
ghost use Rattle.records.specs.declared.Goal.TheVariants.{Mass as GoalMass};
ghost use Rattle.sheets.specs.Notes.{part_of, parts_of};

use crate::{Figures, Notes};
use arrayvec::ArrayVec;
use records::Goal;

impl Notes {
    /// Nothing is noted yet; the goal is mass.
    pub fn new() -> Notes
        ensures parts { parts_of result ≡ [] }
        ensures goal { result.goal ≡ GoalMass }
    {
        Notes {
            figures: ArrayVec::new(),
            goal: Goal::Mass,
        }
    }

    /// One part more.
    pub fn push(&mut self, figures: Figures)
        requires { length (parts_of self.old) < 48 }
        ensures parts { parts_of self.new ≡ parts_of self.old ++ (part_of figures ∷ []) }
        ensures goal { self.new.goal ≡ self.old.goal }
    {
        self.figures.push(figures);
    }

    /// The goal.
    pub fn goal(&self) -> Goal
        ensures { result ≡ self.now.goal }
    {
        self.goal
    }

    /// The figures of the parts.
    pub fn figures(&self) -> &[Figures]
        ensures is { result.now ≡ self.now.figures.items }
        ensures few { length result.now ≤ 48 }
    {
        self.figures.as_slice()
    }
}
