//! The first line of a listing, as text of a small size.
ghost use Rattle.std.specs.Prelude.{◌≡◌, ℕ, ◌+◌, ◌≤◌, ◌++◌, length};
ghost use Rattle.std.specs.List.{concat};
ghost use Rattle.listings.specs.Listings.{goal_line, fault_text, contents};

use crate::{FaultLine, Grade};
use arrayvec::ArrayVec;
use itoa::Buffer;

// No first line is longer.
const LONGEST: usize = 75;

/// A first line.
pub type Line = ArrayVec<u8, LONGEST>;

// Pieces of text, one after another.
fn joined(pieces: &[&[u8]]) -> Line
    requires { length (concat (contents pieces.now)) ≤ 75 }
    ensures { result.items ≡ concat (contents pieces.now) }
{
    let mut line = Line::new();
    for piece in pieces {
        line.try_extend_from_slice(piece).unwrap();
    }
    line
}

/// The goal, with the kind's name and its one or two numbers.
pub fn goal_text(grade: Grade) -> Line
    ensures { result.items ≡ goal_line grade }
{
    let mut first = Buffer::new();
    let mut second = Buffer::new();
    match grade {
        Grade::Mass(mass) => joined(&[b"goal mass ", first.format(mass).as_bytes(), b"\n"]),
        Grade::Wait(days) => joined(&[b"goal wait ", first.format(days).as_bytes(), b"\n"]),
        Grade::MassPrice { mass, price } => joined(&[
            b"goal mass-price ",
            first.format(mass).as_bytes(),
            b" ",
            second.format(price).as_bytes(),
            b"\n",
        ]),
    }
}

/// A fault with its number, its layer, its record and its place.
pub fn fault_line(fault: FaultLine) -> Line
    ensures { result.items ≡ fault_text fault.number fault.layer fault.«record» fault.place }
{
    let mut number = Buffer::new();
    let mut layer = Buffer::new();
    let mut record = Buffer::new();
    let mut place = Buffer::new();
    joined(&[
        b"fault ",
        number.format(fault.number).as_bytes(),
        b" layer ",
        layer.format(fault.layer).as_bytes(),
        b" record ",
        record.format(fault.record).as_bytes(),
        b" place ",
        place.format(fault.place).as_bytes(),
        b"\n",
    ])
}
