//! A sheet read record by record.
ghost use Rattle.std.specs.Prelude.{◌≡◌, ℕ, ◌<◌, ◌≤◌, List, [], length, MatchResult};
ghost use Rattle.arrayvec.specs.ArrayVec.{array_vec_len};
ghost use Rattle.fields.specs.Fields.{found};
ghost use Rattle.fields.specs.Meanings.{fault_of, contents};
ghost use Rattle.records.specs.Sheets.{read_record, stage_after, names_after};
ghost use Rattle.records.specs.Meanings.{said, held_names, Shows};

use crate::heads::record_at;
use crate::{Placed, Reader, Record, Stage};
use arrayvec::ArrayVec;
use fields::Fault;

impl<'a> Reader<'a> {
    /// A reader at the start of a sheet.
    pub fn new(sheet: &'a [u8]) -> Reader<'a>
        ensures { (result.sheet.now ≡ sheet.now) × (result.at ≡ 0) × (result.stage ≡ Stage.Parts) × (held_names result ≡ []) }
    {
        Reader {
            sheet,
            at: 0,
            stage: Stage::Parts,
            names: ArrayVec::new(),
        }
    }

    /// The next record. A refusal leaves the reader as it was.
    pub fn next(&mut self) -> Result<Placed<'a>, Fault>
        ensures { MatchResult result
            (λ p. (read_record self.old.stage (held_names self.old) self.old.sheet.now self.old.at
            ≡ found (said p.record) self.new.at)
            × (p.place ≡ self.old.at)
            × (self.old.at < self.new.at)
            × Shows p.record (length (held_names self.old))
            × (self.new.sheet.now ≡ self.old.sheet.now)
            × (self.new.stage ≡ stage_after self.old.stage (said p.record))
            × (held_names self.new ≡ names_after (held_names self.old) (said p.record)))
            (λ f. (read_record self.old.stage (held_names self.old) self.old.sheet.now self.old.at
            ≡ fault_of f)
            × (self.new ≡ self.old)) }
    {
        let place = self.at;
        let (record, after) = record_at(self.sheet, self.stage, &self.names, place)?;
        self.pass(record, after);
        Ok(Placed { place, record })
    }

    /// The names of the parts so far, in their order.
    pub fn names(&self) -> &[&'a [u8]]
        ensures { contents result.now ≡ held_names self.now }
    {
        self.names.as_slice()
    }

    // Goes past a record that was read, to the place after it.
    fn pass(&mut self, record: Record<'a>, after: usize)
        requires { (after ≤ length self.old.sheet.now) × Shows «record» (array_vec_len self.old.names) }
        ensures { (self.new.sheet.now ≡ self.old.sheet.now)
            × (self.new.at ≡ after)
            × (self.new.stage ≡ stage_after self.old.stage (said «record».entry))
            × (held_names self.new ≡ names_after (held_names self.old) (said «record».entry)) }
    {
        match record {
            Record::Part(part) => {
                self.names.push(part.name);
                self.stage = Stage::Parts;
            }
            Record::Limit {
                sense: _,
                bound: _,
                terms: _,
            } => {
                self.stage = Stage::Limits;
            }
            Record::Goal(_) => {
                self.stage = Stage::End;
            }
            Record::End => {}
        }
        self.at = after;
    }
}
