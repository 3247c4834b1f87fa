//! A whole sheet read into a job: a call of `sheets`, which `list` makes and which `set_chooser` does not hand on.
use super::*;
use set_chooser::{Choice, NoMemory, Place, Reader};
use sheets::faults::{RecordFault, SheetFault};
use sheets::reading::read_all;
use sheets::{Figures, Notes};

// One part, and at least one of it.
const PACK: &[u8] = b"\x01\x09\x04pack\xbe\x01\x02\x19\x03\x03\x02\x00\x02\x00\x00";

// The same part, and a limit on a part that the sheet lacks.
const LACKING: &[u8] = b"\x01\x09\x04pack\xbe\x01\x02\x19\x03\x03\x02\x01\x02\x00\x00";

// A sheet is read into a job with which its caller goes on, and the part's figures are noted.
#[test]
fn a_sheet_is_read_into_a_job(rt: HostRuntime) {
    let mut places = [Place::EMPTY; 8];
    let mut reader = Reader::new(PACK);
    let mut job = Job::new(&mut places);
    let mut notes = Notes::new();
    assert_eq!(rt;
        read_all(&mut reader, &mut job, &mut NoMemory::new(), &mut notes),
        Ok(())
    );
    assert_eq!(rt; reader.names().len(), 1);
    assert_eq!(rt;
        notes.figures(),
        [Figures {
            mass: 95,
            wait: 2,
            price: 25
        }]
        .as_slice()
    );
    assert_eq!(rt; job.check(Choice(0)), Ok(Some(0)));
    assert_eq!(rt; job.check(Choice(1)), Ok(None));
    assert_eq!(rt; job.take_back(), Ok(()));
    assert_eq!(rt; job.check(Choice(0)), Ok(None));
}

// The first fault is answered with its record; the part before it stands in the job, and no limit does.
#[test]
fn a_fault_leaves_what_was_read_before_it(rt: HostRuntime) {
    let mut places = [Place::EMPTY; 8];
    let mut reader = Reader::new(LACKING);
    let mut job = Job::new(&mut places);
    let mut notes = Notes::new();
    assert_eq!(rt;
        read_all(&mut reader, &mut job, &mut NoMemory::new(), &mut notes),
        Err(RecordFault {
            record: 1,
            fault: SheetFault::Limit {
                refusal: Refusal::PartOutOfRange,
                place: 11
            }
        })
    );
    assert_eq!(rt; notes.figures().len(), 1);
    assert_eq!(rt; job.check(Choice(2)), Err(Refusal::PartOutOfRange));
    assert_eq!(rt; job.take_back(), Err(Refusal::NothingStands));
}
