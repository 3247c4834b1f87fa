//! The listing of a sheet.
ghost use Rattle.std.specs.Prelude.{◌≡◌, ◌≤◌, length, IfOk};
ghost use Rattle.listings.specs.Listings.{fault_text, contents, Listed};
ghost use Rattle.set_chooser.specs.Listing.{refusal_number, whole_fault_number, listing, Lists};
ghost use Rattle.set_chooser.specs.Verdicts.{rows_lent, verdict_text};
ghost use Rattle.set_chooser.specs.Promise.{RightListing};

use crate::solved::{Verdict, solved};
use fields::Layer;
use jobs::Job;
use listings::{FaultLine, write_best, write_fault, write_nothing};
use memories::Memory;
use records::Reader;
use rows::RowTables;
use sheets::Notes;
use sheets::reading::read_all;
use tables::Place;

// A sheet has at most so many bytes.
const LONGEST_SHEET: usize = 32_768;

/// Why no listing is written.
#[derive(Clone, Copy, PartialEq, Eq, Debug, Drop)]
pub enum ListRefusal {
    OutputTooShort = 13,
}

impl ListRefusal {
    /// The number by which the refusal is known.
    pub fn number(self) -> u8
        ensures { result ≡ refusal_number self }
    {
        self as u8
    }
}

// What is at fault with a sheet as a whole, and with none of its records.
#[derive(Clone, Copy, PartialEq, Eq, Debug, Drop)]
enum WholeFault {
    TooLong = 16,
}

impl WholeFault {
    // The number by which the fault is known in listings.
    fn number(self) -> u8
        ensures { result ≡ whole_fault_number self }
    {
        self as u8
    }
}

// The listing of a fault of the jobs' layer that has no record and no place of its own.
fn write_bare_fault(out: &mut [u8], number: u8) -> Option<usize>
    ensures { Listed (fault_text number 3 0 0) out.old out.new result }
{
    write_fault(
        out,
        FaultLine {
            number,
            layer: Layer::Jobs.number(),
            record: 0,
            place: 0,
        },
    )
}

// The listing of a verdict.
fn write_verdict(out: &mut [u8], names: &[&[u8]], verdict: Verdict) -> Option<usize>
    ensures { Listed (verdict_text verdict (contents names.now)) out.old out.new result }
{
    match verdict {
        Ok(Some(best)) => write_best(out, best.grade, names, best.choice),
        Ok(None) => write_nothing(out),
        Err(refusal) => write_bare_fault(out, refusal.number()),
    }
}

// The listing of a sheet, none where the output is too short for it.
fn listed<M: Memory>(
    sheet: &[u8],
    places: &mut [Place],
    rows: &mut RowTables,
    memory: &mut M,
    out: &mut [u8],
) -> Option<usize>
    ensures { Listed (listing sheet.now (length places.old) (rows_lent rows.old)) out.old out.new result }
{
    if sheet.len() > LONGEST_SHEET {
        return write_bare_fault(out, WholeFault::TooLong.number());
    }
    let mut reader = Reader::new(sheet);
    let mut job = Job::new(places);
    let mut notes = Notes::new();
    match read_all(&mut reader, &mut job, memory, &mut notes) {
        Ok(()) => write_verdict(out, reader.names(), solved(&job, &notes, rows)),
        Err(first) => write_fault(
            out,
            FaultLine {
                number: first.fault.number(),
                layer: first.fault.layer(),
                record: first.record,
                place: first.fault.place(),
            },
        ),
    }
}

/// Reads a sheet, solves it in a job of its own, and writes its listing to the start of the output; the rest of the output is left.
/// It answers how many bytes were written. Where the output is too short, nothing is written.
pub fn list<M: Memory>(
    sheet: &[u8],
    places: &mut [Place],
    rows: &mut RowTables,
    memory: &mut M,
    out: &mut [u8],
) -> Result<usize, ListRefusal>
    ensures lists { Lists (listing sheet.now (length places.old) (rows_lent rows.old)) out.old out.new result }
    ensures right { RightListing sheet.now (listing sheet.now (length places.old) (rows_lent rows.old)) }
    ensures fits { IfOk result (λ n. n ≤ length out.old) }
{
    listed(sheet, places, rows, memory, out).ok_or(ListRefusal::OutputTooShort)
}
