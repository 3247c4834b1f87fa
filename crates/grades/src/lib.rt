//! Kinds of grade: what a choice adds up to, and which of two ranks first.
#![tactic(auto)]

ghost use Rattle.std.specs.Prelude.{◌≡◌, ℕ, ◌+◌, ◌<◌, ◌≤◌, ℤ, MatchOption};
ghost use Rattle.grades.specs.Laws.{Kind, Laws};
ghost use Rattle.grades.specs.Kinds.{Priced, priced, mass_kind, wait_kind, mass_price_kind};
ghost use Rattle.grades.specs.Optimal.{RuleIsFirst, RuleSettles, BestIsBest, SizesStay};
ghost use Rattle.grades.specs.Lawful.{mass_laws, wait_laws, mass_price_laws};

// The grade of a weight has at most this size.
// A constant of its own, though a coefficient goes as far: kinds of grade know nothing of limits.
const MOST_SIZE: u32 = 1_000_000;

/// A kind of grade.
pub trait Grade: Copy {
    /// What a part weighs.
    type Weight;

    /// The number of the kind.
    const CODE: u8;

    // the number of the kind, in a contract
    ghost number: { ℕ };

    // the grades that the kind has
    ghost Meaning: { Type 0 };

    // the grade that a value means
    ghost means: { Self → Meaning };

    // the grade that a weight means
    ghost weighs: { Self.Weight → Meaning };

    ghost kind: { Kind Meaning };

    /// The number of the kind.
    // A function beside the constant, since a contract of generic code can name no constant of a trait.
    fn kind_code() -> u8
        ensures { result ≡ number };

    /// The empty grade.
    fn empty() -> Self
        ensures { means result ≡ kind.empty };

    /// The grade that a weight means, and none where its size is above 1,000,000.
    fn of_weight(weight: &Self::Weight) -> Option<Self>
        ensures { MatchOption result (1000000 < kind.size (weighs weight.now)) (λ g. (kind.size (weighs weight.now) ≤ 1000000) × (means g ≡ weighs weight.now)) };

    /// The two grades joined, exactly where their sizes total at most 48,000,000.
    fn join(&self, other: &Self) -> Self
        ensures { kind.size (means self.now) + kind.size (means other.now) ≤ 48000000 → means result ≡ kind.join (means self.now) (means other.now) };

    /// Whether the grade ranks no later than the other.
    fn ranks_no_later(&self, other: &Self) -> bool
        ensures { result ≡ kind.no_later (means self.now) (means other.now) };

    ghost laws: { Laws kind };
}

/// The fitted parts' grams, added up.
#[derive(Clone, Copy, PartialEq, Eq, PartialOrd, Ord, Debug, Drop)]
pub struct Mass {
    pub grams: i32,
}

impl Grade for Mass {
    type Weight = i32;

    const CODE: u8 = 0;

    ghost number = { 0 };

    ghost Meaning = { ℤ };

    ghost means = { λ m. m.grams };

    ghost weighs = { λ w. w };

    ghost kind = { mass_kind };

    ghost laws = { mass_laws };

    fn kind_code() -> u8 {
        Mass::CODE
    }

    fn empty() -> Mass {
        Mass { grams: 0 }
    }

    fn of_weight(weight: &i32) -> Option<Mass> {
        (weight.unsigned_abs() <= MOST_SIZE).then_some(Mass { grams: *weight })
    }

    // Saturating, since any two grades may be joined; the sum is exact for all sizes that the contract speaks of.
    fn join(&self, other: &Mass) -> Mass {
        Mass {
            grams: self.grams.saturating_add(other.grams),
        }
    }

    fn ranks_no_later(&self, other: &Mass) -> bool {
        self <= other
    }
}

/// The longest wait for a fitted part, in days.
#[derive(Clone, Copy, PartialEq, Eq, PartialOrd, Ord, Debug, Drop)]
pub struct Wait {
    pub days: u32,
}

impl Grade for Wait {
    type Weight = u32;

    const CODE: u8 = 1;

    ghost number = { 1 };

    ghost Meaning = { ℕ };

    ghost means = { λ m. m.days };

    ghost weighs = { λ w. w };

    ghost kind = { wait_kind };

    ghost laws = { wait_laws };

    fn kind_code() -> u8 {
        Wait::CODE
    }

    fn empty() -> Wait {
        Wait { days: 0 }
    }

    fn of_weight(weight: &u32) -> Option<Wait> {
        (*weight <= MOST_SIZE).then_some(Wait { days: *weight })
    }

    fn join(&self, other: &Wait) -> Wait {
        Wait {
            days: self.days.max(other.days),
        }
    }

    fn ranks_no_later(&self, other: &Wait) -> bool {
        self <= other
    }
}

/// The fitted parts' grams and prices, added up; the price ranks those of equal grams.
#[derive(Clone, Copy, PartialEq, Eq, PartialOrd, Ord, Debug, Drop)]
pub struct MassPrice {
    pub grams: i32,
    pub price: u32,
}

impl Grade for MassPrice {
    type Weight = (i32, u32);

    const CODE: u8 = 2;

    ghost number = { 2 };

    ghost Meaning = { Priced };

    ghost means = { λ m. priced m.grams m.price };

    ghost weighs = { λ w. priced w.0 w.1 };

    ghost kind = { mass_price_kind };

    ghost laws = { mass_price_laws };

    fn kind_code() -> u8 {
        MassPrice::CODE
    }

    fn empty() -> MassPrice {
        MassPrice { grams: 0, price: 0 }
    }

    fn of_weight(weight: &(i32, u32)) -> Option<MassPrice> {
        let (grams, price) = *weight;
        (grams.unsigned_abs() <= MOST_SIZE && price <= MOST_SIZE).then_some(MassPrice {
            grams,
            price,
        })
    }

    // Saturating, as the join of two masses is.
    fn join(&self, other: &MassPrice) -> MassPrice {
        MassPrice {
            grams: self.grams.saturating_add(other.grams),
            price: self.price.saturating_add(other.price),
        }
    }

    fn ranks_no_later(&self, other: &MassPrice) -> bool {
        // By the fields and not by the derived order, by which a solve over skipped parts takes half as long again.
        self.grams < other.grams || (self.grams == other.grams && self.price <= other.price)
    }
}

/// For every lawful kind, the rule's choice is first among those that keep all limits, and there is none exactly if none keeps them.
pub fn rule_is_first<G: Grade>()
    ensures { RuleIsFirst G.kind }
{}

/// For every lawful kind, the rule's choice is settled part by part, from part 0 up.
pub fn rule_settles<G: Grade>()
    ensures { RuleSettles G.kind }
{}

/// For every lawful kind, the best grade is least among the grades of all choices that keep all limits.
pub fn best_is_best<G: Grade>()
    ensures { BestIsBest G.kind }
{}

/// For every lawful kind, grades of choices among 48 parts stay within the sizes whose join is exact.
pub fn sizes_stay<G: Grade>()
    ensures { SizesStay G.kind }
{}
