//! A job: its parts, its node table and its standing limits.
#![tactic(auto)]

ghost use Rattle.std.specs.Prelude.{◌≤◌};
ghost use Rattle.tables.specs.Chains.{made};
ghost use Rattle.jobs.specs.Books.{Books};

use crate::ledger::Ledger;
use tables::NodeTable;

mod calls;
mod checking;
pub mod ledger;
mod weighing;

/// A number of parts, and limits over them, with the diagrams of the limits in one node table.
#[derive(Drop)]
pub struct Job<'a> {
    parts: u8,
    table: NodeTable<'a>,
    ledger: Ledger,
    ghost few: { parts ≤ 48 },
    ghost books: { ∥ Books parts (made table) ledger.records ledger.count ∥₁ },
}
