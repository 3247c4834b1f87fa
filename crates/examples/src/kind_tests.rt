use super::*;
use crate::cost_wait::{CostWait, Offer};
use crate::tests::{best, four_parts};
use set_chooser::{MassPrice, NoMemory, Place, Wait};

// A limit of these terms, without a remembering table.
fn limit(job: &mut Job, terms: &[Term], sense: Sense, bound: i32) -> Result<(), Refusal> {
    close(job, terms, sense, bound, &mut NoMemory::new())
}

// The four-part set by each kind of the library.
#[test]
fn four_parts_by_each_kind(rt: HostRuntime) {
    let mut places = [Place::EMPTY; 64];
    let mut job = Job::new(&mut places);
    assert_eq!(rt; four_parts(&mut job, &mut NoMemory::new()), Ok(()));
    assert_eq!(rt;
        best(&job, &[180, 95, 40, 30], &mut [Row::EMPTY; 64]),
        Ok(Some((10, Mass { grams: 125 })))
    );
    assert_eq!(rt;
        best(&job, &[3, 10, 2, 5], &mut [Row::EMPTY; 64]),
        Ok(Some((5, Wait { days: 3 })))
    );
    assert_eq!(rt;
        best(
            &job,
            &[(180, 40), (95, 25), (40, 60), (30, 30)],
            &mut [Row::EMPTY; 64]
        ),
        Ok(Some((
            10,
            MassPrice {
                grams: 125,
                price: 55
            }
        )))
    );
    assert_eq!(rt;
        best(
            &job,
            &[(95, 20), (95, 25), (40, 60), (40, 65)],
            &mut [Row::EMPTY; 64]
        ),
        Ok(Some((
            5,
            MassPrice {
                grams: 135,
                price: 80
            }
        )))
    );
}

// A kind of a maker's own: the cheapest set, and among equally cheap ones the set that is complete first.
#[test]
fn a_kind_of_ones_own(rt: HostRuntime) {
    let mut places = [Place::EMPTY; 16];
    let mut job = Job::new(&mut places);
    let offers = [
        Offer {
            cents: 500,
            days: 3,
        },
        Offer {
            cents: 500,
            days: 9,
        },
        Offer {
            cents: 300,
            days: 5,
        },
    ];
    assert_eq!(rt; job.begin(3), Ok(()));
    assert_eq!(rt;
        limit(&mut job, &[term(0, 1), term(1, 1)], Sense::AtLeast, 1),
        Ok(())
    );
    assert_eq!(rt;
        best(&job, &offers, &mut [Row::EMPTY; 64]),
        Ok(Some((
            1,
            CostWait {
                cents: 500,
                days: 3
            }
        )))
    );
    assert_eq!(rt; limit(&mut job, &[term(2, 1)], Sense::AtLeast, 1), Ok(()));
    assert_eq!(rt;
        best(&job, &offers, &mut [Row::EMPTY; 64]),
        Ok(Some((
            5,
            CostWait {
                cents: 800,
                days: 5
            }
        )))
    );
    assert_eq!(rt; limit(&mut job, &[term(0, 1)], Sense::AtMost, 0), Ok(()));
    assert_eq!(rt;
        best(&job, &offers, &mut [Row::EMPTY; 64]),
        Ok(Some((
            6,
            CostWait {
                cents: 800,
                days: 9
            }
        )))
    );
    let dear = Offer {
        cents: 1_000_001,
        days: 0,
    };
    assert_eq!(rt;
        best::<CostWait>(&job, &[dear, dear, dear], &mut [Row::EMPTY; 64]),
        Err(Refusal::OutOfRange)
    );
}

// Parts that no limit names, before, between and after those that one does: each is fitted where that makes the set lighter.
#[test]
fn skipped_parts_are_weighed(rt: HostRuntime) {
    let mut places = [Place::EMPTY; 16];
    let mut job = Job::new(&mut places);
    assert_eq!(rt; job.begin(5), Ok(()));
    assert_eq!(rt;
        limit(&mut job, &[term(1, 1), term(3, 1)], Sense::AtLeast, 1),
        Ok(())
    );
    assert_eq!(rt;
        best(&job, &[-1, 10, -2, 20, -4], &mut [Row::EMPTY; 64]),
        Ok(Some((23, Mass { grams: 3 })))
    );
    assert_eq!(rt;
        best(&job, &[1, 10, -2, 20, 4], &mut [Row::EMPTY; 64]),
        Ok(Some((6, Mass { grams: 8 })))
    );
    assert_eq!(rt;
        best(&job, &[1, 30, 2, 20, -4], &mut [Row::EMPTY; 64]),
        Ok(Some((24, Mass { grams: 16 })))
    );
}

// Where a part makes no difference to the best grade, it is left out.
#[test]
fn ties_leave_the_part_out(rt: HostRuntime) {
    let mut places = [Place::EMPTY; 16];
    let mut job = Job::new(&mut places);
    assert_eq!(rt; job.begin(3), Ok(()));
    assert_eq!(rt;
        best(&job, &[0, 0, 0], &mut [Row::EMPTY; 64]),
        Ok(Some((0, Mass { grams: 0 })))
    );
    assert_eq!(rt;
        limit(
            &mut job,
            &[term(0, 1), term(1, 1), term(2, 1)],
            Sense::AtLeast,
            1,
        ),
        Ok(())
    );
    assert_eq!(rt;
        best(&job, &[7, 7, 7], &mut [Row::EMPTY; 64]),
        Ok(Some((4, Mass { grams: 7 })))
    );
    assert_eq!(rt;
        best(&job, &[2, 2, 5], &mut [Row::EMPTY; 64]),
        Ok(Some((2, Wait { days: 2 })))
    );
    assert_eq!(rt;
        best(&job, &[(7, 3), (7, 3), (7, 4)], &mut [Row::EMPTY; 64]),
        Ok(Some((2, MassPrice { grams: 7, price: 3 })))
    );
}
