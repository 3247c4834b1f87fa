//! A sheet of records, read one after another; names and terms are shown as parts of the sheet.
#![tactic(auto)]

ghost use Rattle.std.specs.Prelude.{◌≡◌, ◌≤◌, length};

use arrayvec::ArrayVec;
use fields::Payload;
use limits::Sense;

mod codes;
mod heads;
mod limit_terms;
mod payloads;
mod reading;

/// What a choice is graded by.
#[derive(Clone, Copy, PartialEq, Eq, Debug, Drop)]
pub enum Goal {
    Mass = 0,
    Wait = 1,
    MassPrice = 2,
}

/// The kinds of records. Without discriminants, since a limit's kind holds its sense, which has two codes.
#[derive(Clone, Copy, PartialEq, Eq, Debug, Drop)]
pub enum Kind {
    End,
    Part,
    Limit(Sense),
    Goal,
}

/// A code that names no goal, or no kind of record; which one it was is part of what `try_from` promises.
#[derive(Clone, Copy, PartialEq, Eq, Debug, Drop)]
pub struct UnknownCode(pub u32);

/// A part: its name, as a part of the sheet, and its mass, wait and price.
#[derive(Clone, Copy, PartialEq, Eq, Debug, Drop)]
pub struct Part<'a> {
    pub name: &'a [u8],
    pub mass: i32,
    pub wait: u32,
    pub price: u32,
}

/// What a record says. T is a limit's terms: a part of the sheet where the record is read, and a slice of terms where it is written.
#[derive(Clone, Copy, PartialEq, Eq, Debug, Drop)]
pub enum Record<'a, T = &'a [u8]> {
    Part(Part<'a>),
    Limit { sense: Sense, bound: i32, terms: T },
    Goal(Goal),
    End,
}

/// A record and the place of its first byte.
#[derive(Clone, Copy, PartialEq, Eq, Debug, Drop)]
pub struct Placed<'a> {
    pub place: usize,
    pub record: Record<'a>,
}

/// Which records may come next: any, or none but limits, a goal and the end, or none but the end.
#[derive(Clone, Copy, PartialEq, Eq, Debug, Drop)]
pub enum Stage {
    Parts,
    Limits,
    End,
}

/// A sheet, the place that is read next, which records may come there, and the names of the parts so far: a part's name is tested against those
/// before it. What is weighed of a part is noted by those who weigh it.
#[derive(Drop)]
pub struct Reader<'a> {
    sheet: &'a [u8],
    at: usize,
    stage: Stage,
    names: ArrayVec<&'a [u8], 48>,
    ghost ok: { at ≤ length sheet.now },
}

/// The terms of a limit that was read, one after another; the next one's part is at least `least`.
#[derive(Drop)]
pub struct Terms<'a> {
    payload: Payload<'a>,
    least: u8,
    ghost inside: { payload.at ≤ length payload.body.now },
    ghost first: { payload.place ≡ 0 },
}
