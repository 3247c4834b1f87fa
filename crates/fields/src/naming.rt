//! The names of parts.
ghost use Rattle.std.specs.Prelude.{◌≡◌, ℕ, ◌+◌, ◌≤◌, length, IfOk};
ghost use Rattle.fields.specs.Fields.{among, read_name_size, read_name};
ghost use Rattle.fields.specs.Meanings.{contents, read_from, Reads, ReadsBy};

use crate::judging::{LONGEST_NAME, is_plain};
use crate::{Fault, Payload, Reason};

// Whether a name is among others.
fn is_among(names: &[&[u8]], name: &[u8]) -> bool
    ensures { result ≡ among (contents names.now) name.now }
{
    names.contains(&name)
}

impl<'a> Payload<'a> {
    // The length of a part's name.
    fn name_size(&mut self) -> Result<usize, Fault>
        ensures is { Reads (read_from read_name_size self.old) self.old self.new result }
        ensures within { IfOk result (λ n. self.new.at + n ≤ length self.old.body.now) }
    {
        let size = self.number()? as usize;
        if size < 1 || size > LONGEST_NAME {
            return Err(self.fault(Reason::BadName));
        }
        if self.rest().len() < size {
            return Err(self.fault(Reason::WrongLength));
        }
        Ok(size)
    }

    /// A part's name, which none of the parts before it has.
    pub fn name(&mut self, names: &[&'a [u8]]) -> Result<&'a [u8], Fault>
        ensures { ReadsBy (λ n. n.now) (read_from (read_name (contents names.now)) self.old) self.old self.new result }
    {
        let size = self.name_size()?;
        let name = &self.rest()[..size];
        if !is_plain(name) || is_among(names, name) {
            return Err(self.fault(Reason::BadName));
        }
        self.at += size;
        Ok(name)
    }
}
