//! Bytes put into a lent slice, one after another.
ghost use Rattle.std.specs.Prelude.{◌≡◌, ◌+◌, ◌-◌, ◌≤◌, length};
ghost use Rattle.std.proofs.lemmas.List.Edits.{sets};
ghost use Rattle.numbers.specs.Numbers.{encode, encode_signed};
ghost use Rattle.numbers.specs.Cursors.{HasRoom, Puts};

use crate::unsigned_of;

/// A lent slice, and the place in it where the next bytes go.
#[derive(Drop)]
pub struct Cursor<'a> {
    out: &'a mut [u8],
    at: usize,
}

// Puts a number from a place on where there is room, and says where it ends.
// By a loop that stores each byte in its place: by way of a vector of the bytes, writing a number takes twice as long.
fn put_groups(out: &mut [u8], at: usize, value: u32) -> usize
    requires { at + length (encode value) ≤ length out.old }
    ensures end { result ≡ at + length (encode value) }
    ensures out { out.new ≡ sets out.old at (encode value) }
{
    let mut rest = value;
    let mut next = at;
    while rest >= 128 {
        out[next] = (rest % 128 + 128) as u8;
        rest /= 128;
        next += 1;
    }
    out[next] = rest as u8;
    next + 1
}

impl<'a> Cursor<'a> {
    /// A cursor at a place of a slice.
    pub fn new(out: &'a mut [u8], at: usize) -> Cursor<'a>
        ensures { (result.at ≡ at) × (result.out.now ≡ out.old) × (result.out.ghost_name ≡ out.entry.ghost_name) }
    {
        Cursor { out, at }
    }

    /// The place where the next bytes go.
    pub fn at(&self) -> usize
        ensures { result ≡ self.now.at }
    {
        self.at
    }

    /// How many bytes have room at the cursor: none where it is made past the slice's end.
    pub fn room(&self) -> usize
        ensures { result ≡ length self.now.out.now - self.now.at }
    {
        self.out.len().saturating_sub(self.at)
    }

    /// Puts bytes where there is room.
    pub fn put_bytes(&mut self, bytes: &[u8])
        requires { HasRoom bytes.now self.old }
        ensures { Puts bytes.now self.old self.new }
    {
        let end = self.at + bytes.len();
        self.out[self.at..end].copy_from_slice(bytes);
        self.at = end;
    }

    /// Puts a number where there is room.
    pub fn put_number(&mut self, value: u32)
        requires { HasRoom (encode value) self.old }
        ensures { Puts (encode value) self.old self.new }
    {
        self.at = put_groups(self.out, self.at, value);
    }

    /// Puts a signed number where there is room.
    pub fn put_signed(&mut self, value: i32)
        requires { HasRoom (encode_signed value) self.old }
        ensures { Puts (encode_signed value) self.old self.new }
    {
        self.put_number(unsigned_of(value));
    }
}
