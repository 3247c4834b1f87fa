//! The listing of a sheet, as text in a lent output.
#![tactic(auto)]

ghost use Rattle.std.specs.Prelude.{◌≡◌, ℕ, ◌<◌, ◌≤◌, length};
ghost use Rattle.limits.specs.Choices.{bits};
ghost use Rattle.listings.specs.Listings.{best_text, nothing_text, fault_text, contents, fitted, Listed};

use limits::Choice;
use lines::{fits_end, put_fits};
use numbers::cursors::Cursor;
use texts::{fault_line, goal_text};

mod lines;
mod texts;

/// The grade of a choice: grams, days, or grams with a price. Beside the types of grades, as numbers that are printed: a listing adds and
/// compares none.
#[derive(Clone, Copy, PartialEq, Eq, Debug, Drop)]
pub enum Grade {
    Mass(i32),
    Wait(u32),
    MassPrice { mass: i32, price: u32 },
}

/// Where a sheet is at fault: the fault's number and layer, the record's number, and the place. Plain numbers, as they are printed: the faults
/// that have them are of three enums, in crates above and below this one.
#[derive(Clone, Copy, PartialEq, Eq, Debug, Drop)]
pub struct FaultLine {
    pub number: u8,
    pub layer: u8,
    pub record: usize,
    pub place: usize,
}

/// Writes the listing of a choice among named parts: its grade, and the names of its parts. Where it has no room, nothing is written.
pub fn write_best(out: &mut [u8], grade: Grade, names: &[&[u8]], choice: Choice) -> Option<usize>
    ensures { Listed (best_text grade (fitted (contents names.now) (bits (length names.now) choice.0))) out.old out.new result }
{
    let goal = goal_text(grade);
    if out.len() < goal.len() {
        return None;
    }
    let end = fits_end(names, choice, goal.len(), out.len())?;
    let mut cursor = Cursor::new(out, 0);
    cursor.put_bytes(&goal);
    put_fits(&mut cursor, names, choice);
    Some(end)
}

// Writes one line. Where it has no room, nothing is written.
fn write_line(out: &mut [u8], line: &[u8]) -> Option<usize>
    ensures { Listed line.now out.old out.new result }
{
    if out.len() < line.len() {
        return None;
    }
    out[..line.len()].copy_from_slice(line);
    Some(line.len())
}

/// Writes the listing of a sheet that no choice keeps. Where it has no room, nothing is written.
pub fn write_nothing(out: &mut [u8]) -> Option<usize>
    ensures { Listed nothing_text out.old out.new result }
{
    write_line(out, b"nothing fits\n")
}

/// Writes the listing of a fault. Where it has no room, nothing is written.
pub fn write_fault(out: &mut [u8], fault: FaultLine) -> Option<usize>
    ensures { Listed (fault_text fault.number fault.layer fault.«record» fault.place) out.old out.new result }
{
    write_line(out, &fault_line(fault))
}
