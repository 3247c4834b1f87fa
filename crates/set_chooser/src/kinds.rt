//! The kinds of grade that a sheet's goal names.
ghost use Rattle.std.specs.Prelude.{◌≡◌, ℕ, List, map, refl, Option, Result};
ghost use Rattle.limits.specs.declared.Refusal.{Refusal};
ghost use Rattle.grades.specs.Kinds.{priced};
ghost use Rattle.records.specs.declared.Goal.{Goal};
ghost use Rattle.records.specs.declared.Goal.TheVariants.{Mass as GoalMass, Wait as GoalWait, MassPrice as GoalMassPrice};
ghost use Rattle.jobs.specs.Calls.{Standing};
ghost use Rattle.listings.specs.declared.Grade.{Grade as Shown};
ghost use Rattle.listings.specs.declared.Grade.TheVariants.{Mass as MassGrams, Wait as WaitDays};
ghost use Rattle.sheets.specs.Told.{Part};
ghost use Rattle.sheets.specs.Notes.{part_of};
ghost use Rattle.set_chooser.specs.Listing.{shown_price};
ghost use Rattle.set_chooser.specs.Verdicts.{Judged, JudgedFor};
ghost use Rattle.set_chooser.specs.declared.solved.Best.{Best};

use grades::{Grade, Mass, MassPrice, Wait};
use sheets::Figures;

/// A kind of grade that a sheet's goal names.
pub trait GoalKind: Grade {
    // the goal that names the kind
    ghost goal: { Goal };

    // what a part weighs
    ghost weight_of: { Part → Self.Weight };

    // a grade as a listing shows it
    ghost shown: { Self → Shown };

    /// What a part of these figures weighs.
    fn weight(figures: &Figures) -> Self::Weight
        ensures { result ≡ weight_of (part_of figures.now) };

    /// The grade as a listing shows it.
    fn show(self) -> listings::Grade
        ensures { result ≡ shown self };

    // what solving by the kind comes to, of the parts' weights and with its grades as they are shown, is what solving for the goal comes to
    ghost judges: { (ps : List Part) (s : Standing) (rows : ℕ) (v : Result (Option Best) Refusal) → ((shows : Self.Meaning → Shown) → ((g : Self) → shown g ≡ shows (Self.means g)) → Judged Self.kind shows (map (λ p. Self.weighs (weight_of p)) ps) s rows v) → JudgedFor goal ps s rows v };
}

impl GoalKind for Mass {
    ghost goal = { GoalMass };

    ghost weight_of = { λ p. p.mass };

    ghost shown = { λ m. MassGrams m.grams };

    ghost judges = { λ ps s rows v judged. judged MassGrams (λ g. refl) };

    fn weight(figures: &Figures) -> i32 {
        figures.mass
    }

    fn show(self) -> listings::Grade {
        listings::Grade::Mass(self.grams)
    }
}

impl GoalKind for Wait {
    ghost goal = { GoalWait };

    ghost weight_of = { λ p. p.wait };

    ghost shown = { λ m. WaitDays m.days };

    ghost judges = { λ ps s rows v judged. judged WaitDays (λ g. refl) };

    fn weight(figures: &Figures) -> u32 {
        figures.wait
    }

    fn show(self) -> listings::Grade {
        listings::Grade::Wait(self.days)
    }
}

impl GoalKind for MassPrice {
    ghost goal = { GoalMassPrice };

    ghost weight_of = { λ p. (p.mass, p.price) };

    ghost shown = { λ m. shown_price (priced m.grams m.price) };

    ghost judges = { λ ps s rows v judged. judged shown_price (λ g. refl) };

    fn weight(figures: &Figures) -> (i32, u32) {
        (figures.mass, figures.price)
    }

    fn show(self) -> listings::Grade {
        listings::Grade::MassPrice {
            mass: self.grams,
            price: self.price,
        }
    }
}
