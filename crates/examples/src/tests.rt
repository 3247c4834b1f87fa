use super::*;
use set_chooser::{Choice, Grade, Latest, NoMemory, Place, Slots};
use std::test::Fail;

// At most one of two parts needs four nodes, also twice: a table of four places takes it, one of three refuses.
#[test]
fn at_most_one_of_two(rt: HostRuntime) {
    let both = [term(0, 1), term(1, 1)];
    let mut four = [Place::EMPTY; 4];
    let mut job = Job::new(&mut four);
    assert_eq!(rt; job.begin(2), Ok(()));
    assert_eq!(rt;
        close(&mut job, &both, Sense::AtMost, 1, &mut NoMemory::new()),
        Ok(())
    );
    assert_eq!(rt; job.used(), 4);
    assert_eq!(rt;
        close(&mut job, &both, Sense::AtMost, 1, &mut NoMemory::new()),
        Ok(())
    );
    assert_eq!(rt; job.used(), 4);
    assert_eq!(rt; job.take_back(), Ok(()));
    assert_eq!(rt; job.check(Choice(3)), Ok(Some(0)));
    let mut three = [Place::EMPTY; 3];
    let mut small = Job::new(&mut three);
    assert_eq!(rt; small.begin(2), Ok(()));
    assert_eq!(rt;
        close(&mut small, &both, Sense::AtMost, 1, &mut Latest::new()),
        Err(Refusal::TooFewPlaces)
    );
}

// One part at most 1 needs one node, at most 0 two, and a limit without terms none.
#[test]
fn limits_of_one_part(rt: HostRuntime) {
    let one = [term(0, 1)];
    let mut places = [Place::EMPTY; 8];
    let mut job = Job::new(&mut places);
    assert_eq!(rt; job.begin(1), Ok(()));
    assert_eq!(rt;
        close(&mut job, &one, Sense::AtMost, 1, &mut NoMemory::new()),
        Ok(())
    );
    assert_eq!(rt; job.used(), 1);
    assert_eq!(rt; job.begin(1), Ok(()));
    assert_eq!(rt;
        close(&mut job, &one, Sense::AtMost, 0, &mut NoMemory::new()),
        Ok(())
    );
    assert_eq!(rt; job.used(), 2);
    assert_eq!(rt; job.begin(1), Ok(()));
    assert_eq!(rt;
        close(&mut job, &[], Sense::AtMost, 0, &mut NoMemory::new()),
        Ok(())
    );
    assert_eq!(rt; job.used(), 0);
}

// The limits of the four-part set: what is drawn against what the packs give, at most one pack, at least one of the others.
pub(crate) fn four_parts<M: Memory>(job: &mut Job, memory: &mut M) -> Result<(), Refusal> {
    job.begin(4)?;
    close(
        job,
        &[term(0, -20), term(1, -10), term(2, 12), term(3, 9)],
        Sense::AtMost,
        0,
        memory,
    )?;
    close(job, &[term(0, 1), term(1, 1)], Sense::AtMost, 1, memory)?;
    close(job, &[term(2, 1), term(3, 1)], Sense::AtLeast, 1, memory)
}

// The best choice's word and its grade, by any kind.
pub(crate) fn best<G: Grade>(
    job: &Job,
    weights: &[G::Weight],
    rows: &mut [Row<G>],
) -> Result<Option<(u64, G)>, Refusal> {
    let answer = job.solve(weights, &mut Rows::new(rows))?;
    Ok(answer.map(|found| (found.choice.0, found.grade)))
}

// The lightest of the four-part set, with a part barred, and with two barred, when nothing fits.
#[test]
fn four_parts_by_mass(rt: HostRuntime) {
    let mut places = [Place::EMPTY; 64];
    let mut job = Job::new(&mut places);
    assert_eq!(rt; four_parts(&mut job, &mut NoMemory::new()), Ok(()));
    assert_eq!(rt;
        best(&job, &[180, 95, 40, 30], &mut [Row::EMPTY; 64]),
        Ok(Some((10, Mass { grams: 125 })))
    );
    assert_eq!(rt;
        four_parts(&mut job, &mut Slots::over(&mut [None; 8])),
        Ok(())
    );
    assert_eq!(rt;
        best(&job, &[180, 95, 40, 30], &mut [Row::EMPTY; 64]),
        Ok(Some((10, Mass { grams: 125 })))
    );
    assert_eq!(rt; four_parts(&mut job, &mut Latest::new()), Ok(()));
    assert_eq!(rt;
        best(&job, &[180, 95, 40, 30], &mut [Row::EMPTY; 64]),
        Ok(Some((10, Mass { grams: 125 })))
    );
    assert_eq!(rt;
        close(
            &mut job,
            &[term(3, 1)],
            Sense::AtMost,
            0,
            &mut NoMemory::new(),
        ),
        Ok(())
    );
    assert_eq!(rt;
        best(&job, &[180, 95, 40, 30], &mut [Row::EMPTY; 64]),
        Ok(Some((5, Mass { grams: 220 })))
    );
    assert_eq!(rt;
        close(
            &mut job,
            &[term(0, 1)],
            Sense::AtMost,
            0,
            &mut NoMemory::new(),
        ),
        Ok(())
    );
    assert_eq!(rt;
        best::<Mass>(&job, &[180, 95, 40, 30], &mut [Row::EMPTY; 64]),
        Ok(None)
    );
    assert_eq!(rt; job.take_back(), Ok(()));
    assert_eq!(rt;
        best(&job, &[180, 95, 40, 30], &mut [Row::EMPTY; 64]),
        Ok(Some((5, Mass { grams: 220 })))
    );
}

// The refusals of a job, one after another.
#[test]
fn refusals_of_a_job(rt: HostRuntime) {
    let mut places = [Place::EMPTY; 8];
    let mut rows: [Row<Mass>; 8] = [Row::EMPTY; 8];
    let mut job = Job::new(&mut places);
    assert_eq!(rt; job.begin(49), Err(Refusal::PartOutOfRange));
    assert_eq!(rt; job.begin(2), Ok(()));
    assert_eq!(rt; job.take_back(), Err(Refusal::NothingStands));
    assert_eq!(rt;
        close(
            &mut job,
            &[term(48, 1)],
            Sense::AtMost,
            0,
            &mut NoMemory::new(),
        ),
        Err(Refusal::PartOutOfRange)
    );
    assert_eq!(rt;
        close(
            &mut job,
            &[term(1, 1), term(1, 1)],
            Sense::AtMost,
            0,
            &mut NoMemory::new(),
        ),
        Err(Refusal::PartNotRising)
    );
    assert_eq!(rt;
        close(
            &mut job,
            &[term(1, 1_000_001)],
            Sense::AtMost,
            0,
            &mut NoMemory::new(),
        ),
        Err(Refusal::OutOfRange)
    );
    assert_eq!(rt;
        close(
            &mut job,
            &[term(2, 0)],
            Sense::AtMost,
            0,
            &mut NoMemory::new(),
        ),
        Err(Refusal::PartOutOfRange)
    );
    assert_eq!(rt;
        close(
            &mut job,
            &[],
            Sense::AtMost,
            100_000_001,
            &mut NoMemory::new(),
        ),
        Err(Refusal::OutOfRange)
    );
    assert_eq!(rt; job.check(Choice(4)), Err(Refusal::PartOutOfRange));
    assert_eq!(rt; refusal(&job, &[1], &mut rows), Some(Refusal::WrongCount));
    assert_eq!(rt;
        refusal(&job, &[1, 1_000_001], &mut rows),
        Some(Refusal::OutOfRange)
    );
}

// Unsigned LEB128 vectors as the DWARF standard publishes them, and the ends of the range.
#[test]
fn numbers_as_published(rt: HostRuntime) {
    for (value, bytes) in NUMBERS {
        assert!(rt; spells(value, bytes));
    }
}

// 64 limits stand, the next is refused, and one that is taken back makes room again.
#[test]
fn sixty_four_limits(rt: HostRuntime) {
    let mut places = [Place::EMPTY; 2];
    let mut job = Job::new(&mut places);
    for _ in 0..64 {
        assert_eq!(rt;
            close(&mut job, &[], Sense::AtMost, 0, &mut NoMemory::new()),
            Ok(())
        );
    }
    assert_eq!(rt;
        close(&mut job, &[], Sense::AtMost, 0, &mut NoMemory::new()),
        Err(Refusal::TooManyLimits)
    );
    assert_eq!(rt; job.take_back(), Ok(()));
    assert_eq!(rt;
        close(&mut job, &[], Sense::AtMost, 0, &mut NoMemory::new()),
        Ok(())
    );
}

// The tests of a solve in their order: the weights' number, their range, the rows.
#[test]
fn refusals_of_a_solve(rt: HostRuntime) {
    let mut places = [Place::EMPTY; 8];
    let mut one = [Row::EMPTY; 1];
    let mut two = [Row::EMPTY; 2];
    let mut job = Job::new(&mut places);
    assert_eq!(rt; job.begin(1), Ok(()));
    assert_eq!(rt;
        close(
            &mut job,
            &[term(0, 1)],
            Sense::AtMost,
            0,
            &mut NoMemory::new(),
        ),
        Ok(())
    );
    assert_eq!(rt; refusal(&job, &[], &mut []), Some(Refusal::WrongCount));
    assert_eq!(rt;
        refusal(&job, &[1_000_001], &mut []),
        Some(Refusal::OutOfRange)
    );
    assert_eq!(rt;
        refusal(&job, &[1_000_000], &mut one),
        Some(Refusal::TooFewRows)
    );
    assert_eq!(rt; refusal(&job, &[1_000_000], &mut two), None);
}

// Each sheet of the table has its listing.
#[test]
fn sheets_and_listings(rt: HostRuntime) {
    for (sheet, listing) in CASES {
        assert!(rt; lists(sheet, listing));
    }
}

// A sheet above 32,768 bytes is refused as a whole, and an output that is too short is left alone.
#[test]
fn long_sheets_and_short_outputs(rt: HostRuntime) -> Result<(), Fail> {
    let longer = vec![in rt.alloc(); 0u8; 32769]?;
    assert!(rt; lists(&longer, b"fault 16 layer 3 record 0 place 0\n"));
    let longest = vec![in rt.alloc(); 0u8; 32768]?;
    assert!(rt; lists(&longest, b"fault 4 layer 2 record 0 place 0\n"));
    let mut out = [b'.'; 12];
    assert_eq!(rt; set_chooser_list(b"\x03\x01\x02\x00\x00", &mut out), -13);
    assert!(rt; out[0] == b'.');
    Ok(())
}

const NUMBERS: [(u32, &[u8]); 8] = [
    (0, b"\x00"),
    (2, b"\x02"),
    (127, b"\x7f"),
    (128, b"\x80\x01"),
    (129, b"\x81\x01"),
    (130, b"\x82\x01"),
    (12857, b"\xb9\x64"),
    (4_294_967_295, b"\xff\xff\xff\xff\x0f"),
];

// Sheets and their listings.
const CASES: [(&[u8], &[u8]); 33] = [
    // the example sheet: one of two, by mass
    (
        b"\x01\x09\x04pack\xbe\x01\x02\x19\x01\x08\x04lamp<\x05\x1e\x03\x05\x02\x00\x02\x01\x02\x04\x01\x00\x00\x00",
        b"goal mass 30\nfit lamp\n",
    ),
    // the four-part set by mass
    (
        b"\x01\x08\x03big\xe8\x02\x03(\x01\x0a\x05small\xbe\x01\x0a\x19\x01\x08\x04lampP\x02<\x01\x08\x04spot<\x05\x1e\x02\x09\x00\x00'\x01\x13\x02\x18\x03\x12\x02\x05\x02\x00\x02\x01\x02\x03\x05\x02\x02\x02\x03\x02\x04\x01\x00\x00\x00",
        b"goal mass 125\nfit small\nfit spot\n",
    ),
    // the four-part set by wait
    (
        b"\x01\x08\x03big\xe8\x02\x03(\x01\x0a\x05small\xbe\x01\x0a\x19\x01\x08\x04lampP\x02<\x01\x08\x04spot<\x05\x1e\x02\x09\x00\x00'\x01\x13\x02\x18\x03\x12\x02\x05\x02\x00\x02\x01\x02\x03\x05\x02\x02\x02\x03\x02\x04\x01\x01\x00\x00",
        b"goal wait 3\nfit big\nfit lamp\n",
    ),
    // the four-part set by mass and price
    (
        b"\x01\x08\x03big\xe8\x02\x03(\x01\x0a\x05small\xbe\x01\x0a\x19\x01\x08\x04lampP\x02<\x01\x08\x04spot<\x05\x1e\x02\x09\x00\x00'\x01\x13\x02\x18\x03\x12\x02\x05\x02\x00\x02\x01\x02\x03\x05\x02\x02\x02\x03\x02\x04\x01\x02\x00\x00",
        b"goal mass-price 125 55\nfit small\nfit spot\n",
    ),
    // with a part barred
    (
        b"\x01\x08\x03big\xe8\x02\x03(\x01\x0a\x05small\xbe\x01\x0a\x19\x01\x08\x04lampP\x02<\x01\x08\x04spot<\x05\x1e\x02\x09\x00\x00'\x01\x13\x02\x18\x03\x12\x02\x05\x02\x00\x02\x01\x02\x03\x05\x02\x02\x02\x03\x02\x02\x03\x00\x03\x02\x00\x00",
        b"goal mass 220\nfit big\nfit lamp\n",
    ),
    // with two barred nothing fits
    (
        b"\x01\x08\x03big\xe8\x02\x03(\x01\x0a\x05small\xbe\x01\x0a\x19\x01\x08\x04lampP\x02<\x01\x08\x04spot<\x05\x1e\x02\x09\x00\x00'\x01\x13\x02\x18\x03\x12\x02\x05\x02\x00\x02\x01\x02\x03\x05\x02\x02\x02\x03\x02\x02\x03\x00\x03\x02\x02\x03\x00\x00\x02\x00\x00",
        b"nothing fits\n",
    ),
    // a part that a later choice needs anyway
    (
        b"\x01\x05\x01a\x02\x09\x00\x01\x05\x01b\x02\x03\x00\x01\x05\x01c\x02\x04\x00\x03\x03\x02\x00\x02\x03\x05\x02\x01\x02\x02\x02\x04\x01\x01\x00\x00",
        b"goal wait 9\nfit a\nfit b\n",
    ),
    // a part that no limit names and that makes the set lighter
    (
        b"\x01\x07\x03gas\x09\x00\x00\x00\x00",
        b"goal mass -5\nfit gas\n",
    ),
    // no parts and no limits
    (b"\x00\x00", b"goal mass 0\n"),
    // no parts, and a limit that cannot be kept
    (b"\x03\x01\x02\x00\x00", b"nothing fits\n"),
    // 1: nothing at all
    (b"", b"fault 1 layer 1 record 0 place 0\n"),
    // 1: a length is cut short
    (
        b"\x01\x09\x04pack\xbe\x01\x02\x19\x02\x80",
        b"fault 1 layer 1 record 1 place 12\n",
    ),
    // 2: a kind that is not shortest
    (b"\x80\x00", b"fault 2 layer 1 record 0 place 0\n"),
    // 2: a fifth byte above 15
    (
        b"\xff\xff\xff\xff\x10",
        b"fault 2 layer 1 record 0 place 0\n",
    ),
    // 3: a kind above 4
    (b"\x05\x00", b"fault 3 layer 2 record 0 place 0\n"),
    // 3: a part after a limit
    (
        b"\x02\x01\x00\x01\x09\x04pack\xbe\x01\x02\x19\x00\x00",
        b"fault 3 layer 2 record 1 place 3\n",
    ),
    // 3: a second goal
    (
        b"\x04\x01\x00\x04\x01\x00\x00\x00",
        b"fault 3 layer 2 record 1 place 3\n",
    ),
    // 4: a payload past the sheet
    (b"\x02\x02\x00", b"fault 4 layer 2 record 0 place 0\n"),
    // 4: a name past its payload
    (b"\x01\x02\x02a", b"fault 4 layer 2 record 0 place 0\n"),
    // 4: a byte left over in a part
    (
        b"\x01\x06\x01a\x00\x00\x00\x00\x00\x00",
        b"fault 4 layer 2 record 0 place 0\n",
    ),
    // 4: a byte after the end
    (b"\x00\x00\x00", b"fault 4 layer 2 record 0 place 0\n"),
    // 5: a name of no bytes
    (
        b"\x01\x04\x00\x00\x00\x00",
        b"fault 5 layer 2 record 0 place 0\n",
    ),
    // 5: a space in a name
    (
        b"\x01\x05\x01\x20\x00\x00\x00",
        b"fault 5 layer 2 record 0 place 0\n",
    ),
    // 5: the same name twice
    (
        b"\x01\x09\x04pack\xbe\x01\x02\x19\x01\x09\x04pack\xbe\x01\x02\x19\x00\x00",
        b"fault 5 layer 2 record 1 place 11\n",
    ),
    // 6: a goal above 2
    (b"\x04\x01\x03", b"fault 6 layer 2 record 0 place 0\n"),
    // 7: a part that the sheet lacks, with coefficient 0
    (
        b"\x01\x09\x04pack\xbe\x01\x02\x19\x02\x03\x00\x01\x00\x00\x00",
        b"fault 7 layer 3 record 1 place 11\n",
    ),
    // 7: a part above 47
    (
        b"\x01\x09\x04pack\xbe\x01\x02\x19\x02\x02\x000",
        b"fault 7 layer 3 record 1 place 11\n",
    ),
    // 8: a part twice in a limit
    (
        b"\x01\x09\x04pack\xbe\x01\x02\x19\x02\x04\x00\x00\x02\x00",
        b"fault 8 layer 3 record 1 place 11\n",
    ),
    // 9: a mass of 1,000,001
    (
        b"\x01\x07\x01a\x82\x89z\x00\x00",
        b"fault 9 layer 2 record 0 place 0\n",
    ),
    // a mass of -1,000,000
    (
        b"\x01\x07\x01a\xff\x88z\x00\x00\x00\x00",
        b"goal mass -1000000\nfit a\n",
    ),
    // 9: a coefficient of -1,000,001
    (
        b"\x01\x09\x04pack\xbe\x01\x02\x19\x02\x05\x00\x00\x81\x89z",
        b"fault 9 layer 3 record 1 place 11\n",
    ),
    // 9: a bound of 100,000,001, once the record is read
    (
        b"\x01\x09\x04pack\xbe\x01\x02\x19\x02\x04\x82\x84\xaf_",
        b"fault 9 layer 3 record 1 place 11\n",
    ),
    // a bound of 100,000,000
    (
        b"\x01\x09\x04pack\xbe\x01\x02\x19\x02\x04\x80\x84\xaf_\x00\x00",
        b"goal mass 0\n",
    ),
];
