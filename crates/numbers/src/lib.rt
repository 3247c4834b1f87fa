//! Whole numbers as bytes, in groups of seven bits, read from a list of bytes and put into a lent one.
#![tactic(auto)]

ghost use Rattle.std.specs.Prelude.{◌≡◌, ℕ, ◌+◌, ◌<◌, ◌≤◌, length, IfOk};
ghost use Rattle.std.proofs.lemmas.List.Edits.{sets};
ghost use Rattle.numbers.specs.Numbers.{fault_number, reading_of, read_number, read_signed, signed_of, unsigned_of, encode, encode_signed, Written};
ghost use Rattle.numbers.specs.Laws.{ReadsBack, SignedReadsBack, OneSpelling, SignedOneSpelling};

use cursors::Cursor;

pub mod cursors;

// The fifth byte of a number is below this.
const FIFTH_END: u8 = 16;

/// Why no number can be read at a place.
#[derive(Clone, Copy, PartialEq, Eq, Debug, Drop)]
pub enum NumberFault {
    CutShort = 1,
    NotShortest = 2,
}

impl NumberFault {
    /// The number by which the fault is known.
    pub fn number(self) -> u8
        ensures { result ≡ fault_number self }
    {
        self as u8
    }
}

/// The number at a place, and the place after it.
pub fn read_number(bytes: &[u8], at: usize) -> Result<(u32, usize), NumberFault>
    ensures is { reading_of result ≡ read_number bytes.now at }
    ensures within { IfOk result (λ p. (at < p.1) × (p.1 ≤ length bytes.now)) }
{
    let Some(rest) = bytes.get(at..) else {
        return Err(NumberFault::CutShort);
    };
    // By a loop: each digit's weight is the last one's times 128, and the byte that ends the number may be any of five.
    let mut value: u64 = 0;
    let mut weight: u64 = 1;
    for (i, &b) in rest.iter().enumerate() {
        if i == 4 && b >= FIFTH_END {
            return Err(NumberFault::NotShortest);
        }
        if b < 128 {
            if b == 0 && i > 0 {
                return Err(NumberFault::NotShortest);
            }
            return Ok(((value + weight * u64::from(b)) as u32, at + i + 1));
        }
        value += weight * u64::from(b - 128);
        weight *= 128;
    }
    Err(NumberFault::CutShort)
}

/// The signed number that a number stands for. By halves and doubles, as the definition has it: shifts are no plainer.
pub fn signed_of(n: u32) -> i32
    ensures { result ≡ signed_of n }
{
    let half = (n / 2) as i32;
    if n % 2 == 0 { half } else { -1 - half }
}

/// The number that stands for a signed one.
pub fn unsigned_of(v: i32) -> u32
    ensures { result ≡ unsigned_of v }
{
    if v >= 0 {
        2 * (v as u32)
    } else {
        2 * ((-1 - v) as u32) + 1
    }
}

/// The signed number at a place, and the place after it.
pub fn read_signed(bytes: &[u8], at: usize) -> Result<(i32, usize), NumberFault>
    ensures is { reading_of result ≡ read_signed bytes.now at }
    ensures within { IfOk result (λ p. (at < p.1) × (p.1 ≤ length bytes.now)) }
{
    let (n, next) = read_number(bytes, at)?;
    Ok((signed_of(n), next))
}

/// How many bytes a number takes.
pub fn width(value: u32) -> usize
    ensures is { result ≡ length (encode value) }
    ensures some { 0 < result }
    ensures few { result ≤ 5 }
{
    // By a loop: how many groups there are is known once the rest is below 128.
    let mut rest = value;
    let mut n = 1;
    while rest >= 128 {
        rest /= 128;
        n += 1;
    }
    n
}

/// How many bytes a signed number takes.
pub fn signed_width(value: i32) -> usize
    ensures is { result ≡ length (encode_signed value) }
    ensures few { result ≤ 5 }
{
    width(unsigned_of(value))
}

/// Writes a number from a place on, and says where it ends; where there is no room, nothing is written.
pub fn write_number(out: &mut [u8], at: usize, value: u32) -> Option<usize>
    ensures { Written (encode value) out.old at out.new result }
{
    let room = out.len().checked_sub(at)?;
    if room < width(value) {
        return None;
    }
    let mut cursor = Cursor::new(out, at);
    cursor.put_number(value);
    Some(cursor.at())
}

/// Writes a signed number from a place on, and says where it ends; where there is no room, nothing is written.
pub fn write_signed(out: &mut [u8], at: usize, value: i32) -> Option<usize>
    ensures { Written (encode_signed value) out.old at out.new result }
{
    write_number(out, at, unsigned_of(value))
}

/// What is written is read back: a theorem, which this function's contract states.
pub fn reads_back()
    ensures unsigned { ReadsBack }
    ensures signed { SignedReadsBack }
{}

/// No number has a second spelling: a theorem, which this function's contract states.
pub fn one_spelling()
    ensures unsigned { OneSpelling }
    ensures signed { SignedOneSpelling }
{}
