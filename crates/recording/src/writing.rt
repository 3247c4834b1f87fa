//! Records written after one another.
ghost use Rattle.std.specs.Prelude.{◌≡◌, ℕ, ◌+◌, ◌-◌, ◌≤◌, length, MatchResult};
ghost use Rattle.std.proofs.lemmas.List.Edits.{sets};
ghost use Rattle.numbers.specs.Cursors.{Puts};
ghost use Rattle.limits.specs.Refusals.{done, refused};
ghost use Rattle.spelling.specs.Spelling.{spelled};
ghost use Rattle.spelling.specs.Judging.{refusal_of};
ghost use Rattle.spelling.specs.Laws.{BackIn};
ghost use Rattle.recording.specs.Writing.{refusal_number, saying, Appended, ended};

use crate::judging::judge;
use crate::payloads::{kind, payload_size, put_payload};
use crate::{Entry, Refusal, Writer};
use numbers::cursors::Cursor;
use numbers::width;

// Puts a record at a cursor. A refusal leaves the cursor and its bytes as they were.
fn put_record(cursor: &mut Cursor, entry: Entry) -> Result<(), Refusal>
    ensures { MatchResult result
        (λ _. (refusal_of (saying entry.entry) (length cursor.old.out.now - cursor.old.at) ≡ done)
        × Puts (spelled (saying entry.entry)) cursor.old cursor.new
        × (cursor.new.at ≤ length cursor.old.out.now))
        (λ e. (refusal_of (saying entry.entry) (length cursor.old.out.now - cursor.old.at) ≡ refused (refusal_number e))
        × (cursor.new ≡ cursor.old)) }
{
    judge(entry)?;
    let code = kind(entry).code();
    let size = payload_size(entry);
    if cursor.room() < width(code) + width(size as u32) + size {
        return Err(Refusal::OutputShort);
    }
    cursor.put_number(code);
    cursor.put_number(size as u32);
    put_payload(cursor, entry);
    Ok(())
}

/// Writes a record from a place on, and says where it ends; a refusal leaves the bytes as they were. For those who keep the place themselves.
pub fn write(out: &mut [u8], at: usize, entry: Entry) -> Result<usize, Refusal>
    ensures { Appended (saying entry.entry) out.old at out.new result }
{
    let mut cursor = Cursor::new(out, at);
    put_record(&mut cursor, entry)?;
    Ok(cursor.at())
}

impl<'a> Writer<'a> {
    /// A writer that has written nothing.
    pub fn new(out: &'a mut [u8]) -> Writer<'a>
        ensures { (result.len ≡ 0) × (result.out.now ≡ out.old) × (result.out.ghost_name ≡ out.entry.ghost_name) }
    {
        Writer { out, len: 0 }
    }

    /// How many bytes are written.
    pub fn len(&self) -> usize
        ensures { result ≡ self.now.len }
    {
        self.len
    }

    /// Appends a record. A refusal leaves the writer and its bytes as they were.
    #[tactic(auto, using(crate::proofs::Puts::appended_back))]
    pub fn append(&mut self, entry: Entry) -> Result<(), Refusal>
        ensures same { self.new.out.ghost_name ≡ self.old.out.ghost_name }
        ensures cases { Appended (saying entry.entry) self.old.out.now self.old.len self.new.out.now (ended result self.new.len) }
        ensures left { MatchResult result (λ _. Unit {0}) (λ _. self.new.len ≡ self.old.len) }
        ensures back { MatchResult result
            (λ _. BackIn (saying entry.entry) self.new.out.now self.old.len self.new.len)
            (λ _. Unit {0}) }
    {
        let at = self.len;
        let end = write(self.out, at, entry)?;
        self.len = end;
        Ok(())
    }
}
