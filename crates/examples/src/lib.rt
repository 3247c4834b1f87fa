//! Worked examples, run through the calls that makers reach.
#![tactic(auto)]

pub mod cost_wait;

use set_chooser::{
    Draft, Job, Mass, Memory, Refusal, Row, Rows, Sense, Side, Term, read_number, set_chooser_list,
    write_number,
};

/// A part and its coefficient.
pub const fn term(part: u8, coefficient: i32) -> Term {
    Term { part, coefficient }
}

/// Closes a limit of these terms.
pub fn close<M: Memory>(
    job: &mut Job,
    terms: &[Term],
    sense: Sense,
    bound: i32,
    memory: &mut M,
) -> Result<(), Refusal> {
    let mut draft = Draft::open();
    for t in terms {
        if let Err(refusal) = draft.term(*t) {
            draft.scrap();
            return Err(refusal);
        }
    }
    job.close(draft, Side { sense, bound }, memory)
}

/// Whether the C entry writes this listing of a sheet, and nothing after it.
pub fn lists(sheet: &[u8], listing: &[u8]) -> bool {
    let mut out = [b'.'; 64];
    let written = set_chooser_list(sheet, &mut out);
    written == listing.len() as i64 && out.starts_with(listing)
}

/// Whether a number is written as these bytes, and they are read as that number.
pub fn spells(value: u32, bytes: &[u8]) -> bool {
    let mut out = [0; 5];
    let written = write_number(&mut out, 0, value);
    written == Some(bytes.len())
        && out.starts_with(bytes)
        && read_number(bytes, 0) == Ok((value, bytes.len()))
}

/// How a solve for mass is refused, if it is.
pub fn refusal(job: &Job, masses: &[i32], rows: &mut [Row<Mass>]) -> Option<Refusal> {
    job.solve(masses, &mut Rows::new(rows)).err()
}

#[cfg(test)]
mod kind_tests;
#[cfg(test)]
mod sheet_tests;
#[cfg(test)]
mod tests;
