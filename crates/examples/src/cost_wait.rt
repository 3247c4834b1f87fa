//! A kind of grade of a maker's own: the cheapest set, and among equally cheap ones the set that is complete first.
ghost use Rattle.examples.specs.CostWaits.{Bought, bought, cost_wait_kind};
ghost use Rattle.examples.specs.Keeps.{cost_wait_laws};

use set_chooser::Grade;

/// What a part costs, and the days until it comes.
#[derive(Clone, Copy, Drop)]
pub struct Offer {
    pub cents: u32,
    pub days: u32,
}

/// What the fitted parts cost together, and the days until the last of them comes.
#[derive(Clone, Copy, PartialEq, Eq, PartialOrd, Ord, Debug)]
pub struct CostWait {
    pub cents: u32,
    pub days: u32,
}

impl Grade for CostWait {
    type Weight = Offer;

    const CODE: u8 = 3;

    ghost number = { 3 };

    ghost Meaning = { Bought };

    ghost means = { λ m. bought m.cents m.days };

    ghost weighs = { λ w. bought w.cents w.days };

    ghost kind = { cost_wait_kind };

    ghost laws = { cost_wait_laws };

    fn kind_code() -> u8 {
        Self::CODE
    }

    fn empty() -> CostWait {
        CostWait { cents: 0, days: 0 }
    }

    fn of_weight(weight: &Offer) -> Option<CostWait> {
        let Offer { cents, days } = *weight;
        if cents > 1_000_000 || days > 1_000_000 {
            None
        } else {
            Some(CostWait { cents, days })
        }
    }

    fn join(&self, other: &CostWait) -> CostWait {
        CostWait {
            cents: self.cents.saturating_add(other.cents),
            days: self.days.max(other.days),
        }
    }

    fn ranks_no_later(&self, other: &CostWait) -> bool {
        self <= other
    }
}
