//! The payloads of records: how many bytes they take, and their bytes, put where there is room. Each is measured by one function and put by
//! another: all is measured before a byte is put, so that a refusal leaves the bytes as they were. That it is at most 1,000 bytes stands in
//! each contract, of the piece that the function is given: one fact of the whole would have to be brought down to each piece again.
ghost use Rattle.std.specs.Prelude.{◌≡◌, ℕ, ◌≤◌, length};
ghost use Rattle.numbers.specs.Cursors.{HasRoom, Puts};
ghost use Rattle.records.specs.Codes.{kind_code};
ghost use Rattle.spelling.specs.Spelling.{spelled_terms, payload, kind_of};
ghost use Rattle.recording.specs.Writing.{saying, part_payload};

use crate::Entry;
use limits::drafts::Term;
use numbers::cursors::Cursor;
use numbers::{signed_width, width};
use records::{Kind, Part, Record};

// The kind of an entry.
pub fn kind(entry: Entry) -> Kind
    ensures { kind_code result ≡ kind_of (saying entry.entry) }
{
    match entry {
        Record::Part(_) => Kind::Part,
        Record::Limit {
            sense,
            bound: _,
            terms: _,
        } => Kind::Limit(sense),
        Record::Goal(_) => Kind::Goal,
        Record::End => Kind::End,
    }
}

// How many bytes a part's payload takes.
fn part_size(part: Part) -> usize
    requires { length (part_payload part) ≤ 1000 }
    ensures { result ≡ length (part_payload part.entry) }
{
    width(part.name.len() as u32)
        + part.name.len()
        + signed_width(part.mass)
        + width(part.wait)
        + width(part.price)
}

// How many bytes the terms take. By a loop, whose invariant bounds the sum of the terms so far.
fn terms_size(terms: &[Term]) -> usize
    requires { length (spelled_terms terms.now) ≤ 1000 }
    ensures { result ≡ length (spelled_terms terms.now) }
{
    let mut size = 0;
    for &term in terms {
        size += width(u32::from(term.part)) + signed_width(term.coefficient);
    }
    size
}

// How many bytes an entry's payload takes.
pub fn payload_size(entry: Entry) -> usize
    requires { length (payload (saying entry)) ≤ 1000 }
    ensures { result ≡ length (payload (saying entry.entry)) }
{
    match entry {
        Record::Part(part) => part_size(part),
        Record::Limit {
            sense: _,
            bound,
            terms,
        } => signed_width(bound) + terms_size(terms),
        Record::Goal(goal) => width(u32::from(goal.code())),
        Record::End => 0,
    }
}

// Puts a part's payload.
#[tactic(auto, using(numbers::proofs::Chains::puts_then))]
fn put_part(cursor: &mut Cursor, part: Part)
    requires length { length part.name.now ≤ 1000 }
    requires room { HasRoom (part_payload part) cursor.old }
    ensures { Puts (part_payload part.entry) cursor.old cursor.new }
{
    cursor.put_number(part.name.len() as u32);
    cursor.put_bytes(part.name);
    cursor.put_signed(part.mass);
    cursor.put_number(part.wait);
    cursor.put_number(part.price);
}

// Puts terms. By a loop, since each puts twice at the one cursor.
fn put_terms(cursor: &mut Cursor, terms: &[Term])
    requires { HasRoom (spelled_terms terms.now) cursor.old }
    ensures { Puts (spelled_terms terms.now) cursor.old cursor.new }
{
    for &term in terms {
        cursor.put_number(u32::from(term.part));
        cursor.put_signed(term.coefficient);
    }
}

// Puts an entry's payload.
#[tactic(auto, using(numbers::proofs::Chains::puts_then))]
pub fn put_payload(cursor: &mut Cursor, entry: Entry)
    requires length { length (payload (saying entry)) ≤ 1000 }
    requires room { HasRoom (payload (saying entry)) cursor.old }
    ensures { Puts (payload (saying entry.entry)) cursor.old cursor.new }
{
    match entry {
        Record::Part(part) => put_part(cursor, part),
        Record::Limit {
            sense: _,
            bound,
            terms,
        } => {
            cursor.put_signed(bound);
            put_terms(cursor, terms);
        }
        Record::Goal(goal) => cursor.put_number(u32::from(goal.code())),
        Record::End => {}
    }
}
