//! The standing limits of a job.
ghost use Rattle.std.specs.Prelude.{◌≡◌, ◌+◌, ◌<◌, ◌≤◌, length, take, slice_index_or, slice_set};
ghost use Rattle.jobs.specs.Books.{product_of, blank};

use diagrams::Edge;
use limits::{Limit, Sense};

/// So many limits may stand.
pub const RECORDS: usize = 64;

/// A standing limit, the product of the limits up to it, and the number of used nodes before it.
#[derive(Clone, Copy, Drop)]
pub struct Record {
    pub limit: Limit,
    pub product: Edge,
    pub mark: usize,
}

/// The records of the standing limits, the first `count` of the table. A job has no heap: the table has its 64 records from the start on, and
/// each is filled in its place.
#[derive(Drop)]
pub struct Ledger {
    pub records: [Record; RECORDS],
    pub count: usize,
    ghost whole: { length records ≡ 64 },
    ghost few: { count ≤ 64 },
}

impl Record {
    fn fill(&mut self, limit: Limit, product: Edge, mark: usize)
        ensures { self.new ≡ record { limit = limit; product = product; mark = mark } }
    {
        self.limit = limit;
        self.product = product;
        self.mark = mark;
    }
}

impl Ledger {
    /// A ledger in which nothing stands.
    pub fn empty() -> Ledger
        ensures { result.count ≡ 0 }
    {
        let blank = Record {
            limit: Limit {
                coefficients: [0; 48],
                sense: Sense::AtMost,
                bound: 0,
            },
            product: Edge::constant(1),
            mark: 0,
        };
        Ledger {
            records: [blank; RECORDS],
            count: 0,
        }
    }

    /// The product of the standing limits.
    pub fn product(&self) -> Edge
        ensures { result ≡ product_of self.now.records self.now.count }
    {
        if self.count == 0 {
            Edge::constant(1)
        } else {
            self.records[self.count - 1].product
        }
    }

    /// The records of the standing limits, the oldest first.
    pub fn standing(&self) -> &[Record]
        ensures { result.now ≡ take self.now.count self.now.records }
    {
        &self.records[..self.count]
    }

    /// One limit more.
    pub fn post(&mut self, limit: Limit, product: Edge, mark: usize)
        requires { self.old.count < 64 }
        ensures count { self.new.count ≡ self.old.count + 1 }
        ensures records { self.new.records ≡ slice_set self.old.records self.old.count (record { limit = limit; product = product; mark = mark }) }
    {
        self.records[self.count].fill(limit, product, mark);
        self.count += 1;
    }

    /// Drops all records.
    pub fn drop_all(&mut self)
        ensures count { self.new.count ≡ 0 }
        ensures records { self.new.records ≡ self.old.records }
    {
        self.count = 0;
    }

    /// Drops the latest record, and answers its mark.
    pub fn drop_last(&mut self) -> usize
        requires { 0 < self.old.count }
        ensures count { self.new.count + 1 ≡ self.old.count }
        ensures records { self.new.records ≡ self.old.records }
        ensures mark { result ≡ (slice_index_or self.old.records self.new.count blank).mark }
    {
        self.count -= 1;
        self.records[self.count].mark
    }
}
