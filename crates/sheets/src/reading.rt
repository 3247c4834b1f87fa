//! A sheet read record by record into a job.
ghost use Rattle.std.specs.Prelude.{◌≡◌, ◌<◌, suc, [], length, IfOk};
ghost use Rattle.records.specs.declared.Goal.TheVariants.{Mass as GoalMass};
ghost use Rattle.records.specs.declared.Stage.TheVariants.{Parts};
ghost use Rattle.records.specs.Meanings.{held_names};
ghost use Rattle.jobs.specs.Calls.{standing};
ghost use Rattle.jobs.specs.Stands.{stands, places};
ghost use Rattle.sheets.specs.Told.{read_all, untold, one_step};
ghost use Rattle.sheets.specs.Notes.{parts_of, told_of, came_to, came_all, NoneYet};
ghost use Rattle.sheets.specs.declared.Progress.TheVariants.{GoesOn};

use crate::closing::close_limit;
use crate::faults::{RecordFault, SheetFault};
use crate::{Notes, Progress};
use jobs::Job;
use limits::drafts::Side;
use memories::Memory;
use records::{Reader, Record};

// Reads one record and does what it says.
// Reader, job and notes are parameters and no struct of the three, which would take the job from its caller and move it.
fn read_one<M: Memory>(
    reader: &mut Reader,
    job: &mut Job,
    memory: &mut M,
    notes: &mut Notes,
) -> Result<Progress, SheetFault>
    requires names { length (held_names reader.old) ≡ length (parts_of notes.old) }
    requires parts { (stands job.old).parts ≡ length (parts_of notes.old) }
    requires none { NoneYet reader.old.stage (stands job.old).limits }
    ensures is { came_to result (told_of reader.new job.new notes.new) reader.new.at
        ≡ one_step (places job.old) reader.old.sheet.now (told_of reader.old job.old notes.old) reader.old.at }
    ensures places { places job.new ≡ places job.old }
    ensures sheet { reader.new.sheet.now ≡ reader.old.sheet.now }
    ensures goes { IfOk result (λ p. p ≡ GoesOn → reader.old.at < reader.new.at) }
    ensures names { length (held_names reader.new) ≡ length (parts_of notes.new) }
    ensures parts { (stands job.new).parts ≡ length (parts_of notes.new) }
    ensures none { NoneYet reader.new.stage (stands job.new).limits }
{
    let placed = reader.next()?;
    let place = placed.place;
    match placed.record {
        Record::Part(part) => {
            notes.push(part.into());
            // At most 48 parts are noted, and a job of so many is never refused.
            let _ = job.begin(notes.figures().len() as u8);
        }
        Record::Limit {
            sense,
            bound,
            terms,
        } => close_limit(job, Side { sense, bound }, terms, memory).map_err(
            |refusal| SheetFault::Limit { refusal, place },
        )?,
        Record::Goal(goal) => notes.goal = goal,
        Record::End => return Ok(Progress::Ended),
    }
    Ok(Progress::GoesOn)
}

/// Reads all records of a sheet into the job and the notes, or finds the first fault.
pub fn read_all<M: Memory>(
    reader: &mut Reader,
    job: &mut Job,
    memory: &mut M,
    notes: &mut Notes,
) -> Result<(), RecordFault>
    requires start { reader.old.at ≡ 0 }
    requires stage { reader.old.stage ≡ Parts }
    requires names { held_names reader.old ≡ [] }
    requires notes { (parts_of notes.old ≡ []) × (notes.old.goal ≡ GoalMass) }
    requires stands { stands job.old ≡ standing 0 [] }
    ensures is { came_all result (told_of reader.new job.new notes.new)
        ≡ read_all (suc (length reader.old.sheet.now)) (places job.old) reader.old.sheet.now 0 untold 0 }
    ensures places { places job.new ≡ places job.old }
    ensures sheet { reader.new.sheet.now ≡ reader.old.sheet.now }
    ensures parts { (stands job.new).parts ≡ length (parts_of notes.new) }
    ensures names { length (held_names reader.new) ≡ length (parts_of notes.new) }
    ensures none { NoneYet reader.new.stage (stands job.new).limits }
{
    // By a loop with a count: a fault has its record's number, and reading ends by the end record and not by a count.
    let mut record = 0;
    loop {
        match read_one(reader, job, memory, notes) {
            Ok(Progress::GoesOn) => record += 1,
            Ok(Progress::Ended) => return Ok(()),
            Err(fault) => return Err(RecordFault { record, fault }),
        }
    }
}
