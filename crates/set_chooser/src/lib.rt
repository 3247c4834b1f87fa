//! The set chooser: all that makers of order systems call.
#![tactic(auto)]

mod export;
mod kinds;
mod listing;
mod replaying;
mod solved;

pub use diagrams::{Child, Edge, Operation, Question};
pub use export::set_chooser_list;
pub use fields::{Fault, Layer, Reason};
pub use grades::{Grade, Mass, MassPrice, Wait};
pub use jobs::Job;
pub use limits::drafts::{Draft, Side, Term};
pub use limits::{Choice, Refusal, Sense};
pub use listing::{ListRefusal, list};
pub use logs::{Answered, Call, Found, LogRows, ReplayRefusal, Reply, Weights};
pub use memories::{Latest, Memory, NoMemory, Remembered, Slots};
pub use numbers::{NumberFault, read_number, read_signed, write_number, write_signed};
pub use recording::{Entry, Refusal as WriteRefusal, Writer, end_entry, goal_entry};
pub use records::{Goal, Part, Placed, Reader, Record, Terms};
pub use replaying::replay;
pub use rows::{Row, RowTables, Rows};
pub use solving::Answer;
pub use tables::Place;
