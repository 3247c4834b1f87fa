//! The tests of a field, alike for reading and for writing.
ghost use Rattle.std.specs.Prelude.{◌≡◌};
ghost use Rattle.fields.specs.Fields.{plain, in_range};

use limits::drafts::MOST_COEFFICIENT;

/// A name has at most so many bytes.
pub const LONGEST_NAME: usize = 16;

/// A wait or a price is at most so much. Coefficients and grades have bounds of their own that are as large, and mean something else.
pub const MOST_AMOUNT: u32 = 1_000_000;

/// Whether each byte of a name is one of those from 33 to 126.
pub fn is_plain(name: &[u8]) -> bool
    ensures { result ≡ plain name.now }
{
    name.iter().all(|b| b.is_ascii_graphic())
}

/// Whether a signed number, a mass or a coefficient, is within 1,000,000 either way.
pub fn in_range(v: i32) -> bool
    ensures { result ≡ in_range v }
{
    v.unsigned_abs() <= MOST_COEFFICIENT
}
