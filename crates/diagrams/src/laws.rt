//! What is known of diagrams and needed functions, for all of them.
ghost use Rattle.diagrams.specs.Constants.{OneConstant};
ghost use Rattle.diagrams.specs.Held.{HeldCount};
ghost use Rattle.diagrams.specs.Needed.{NeededAre, MoreNeedNoFewer};
ghost use Rattle.diagrams.specs.Nodes.{Canonical};

/// Two edges over one sound table that denote the same function are the same edge.
pub fn edges_are_canonical()
    ensures { Canonical }
{}

/// A function that is 0 or 1 leads to a node with one constant only: two such edges to one child have equal constants, unless
/// the child is the terminal.
pub fn a_node_has_one_constant()
    ensures { OneConstant }
{}

/// A table that holds one node for each needed function and no other has as many nodes as are needed.
pub fn nodes_are_counted()
    ensures { HeldCount }
{}

/// The needed functions that are computed are those that the rule describes.
pub fn needed_are_as_described()
    ensures { NeededAre }
{}

/// More limits never need fewer nodes.
pub fn more_need_no_fewer()
    ensures { MoreNeedNoFewer }
{}
