//! Worked examples, shown to hold of the definitions.
#![tactic(auto)]

ghost use Rattle.worked.specs.Worked.{Worked};

/// Every row of the table of worked examples holds of the definitions that the contracts cite.
pub fn examples_hold()
    ensures { Worked }
{}
