//! The lines of a listing, put into a lent output where there is room. Their end is found before one is put, so that an output that is too
//! short stays as it was: so one function finds it and another puts them. Both go along the names with the choice's word, which they halve
//! at each, as `bits` reads a word. Names and choice are no struct: a listing has them from its caller one by one, and hands them on twice.
ghost use Rattle.std.specs.Prelude.{◌≡◌, ℕ, ◌+◌, ◌<◌, ◌≤◌, length, MatchOption};
ghost use Rattle.limits.specs.Choices.{bits};
ghost use Rattle.numbers.specs.Cursors.{HasRoom, Puts};
ghost use Rattle.listings.specs.Listings.{fit_line, fit_lines, contents, fitted};

use limits::Choice;
use numbers::cursors::Cursor;

// One line for a fitted part.
fn put_fit(cursor: &mut Cursor, name: &[u8])
    requires { HasRoom (fit_line name.now) cursor.old }
    ensures { Puts (fit_line name.now) cursor.old cursor.new }
{
    cursor.put_bytes(b"fit ");
    cursor.put_bytes(name);
    cursor.put_bytes(b"\n");
}

// Where the line of a fitted part would end; none if that is past `room`.
fn fit_end(name: &[u8], at: usize, room: usize) -> Option<usize>
    requires { at ≤ room }
    ensures { MatchOption result (room < at + (5 + length name.now)) (λ n. (n ≡ at + (5 + length name.now)) × (n ≤ room)) }
{
    if room - at < 5 || room - at - 5 < name.len() {
        return None;
    }
    Some(at + 5 + name.len())
}

// Where the lines of the fitted parts would end, after `at` bytes; none if that is past `room`.
pub fn fits_end(names: &[&[u8]], choice: Choice, at: usize, room: usize) -> Option<usize>
    requires { at ≤ room }
    ensures { MatchOption result
        (room < at + length (fit_lines (fitted (contents names.now) (bits (length names.now) choice.0))))
        (λ n. (n ≡ at + length (fit_lines (fitted (contents names.now) (bits (length names.now) choice.0)))) × (n ≤ room)) }
{
    let mut end = at;
    let mut word = choice.0;
    for name in names {
        if word % 2 == 1 {
            end = fit_end(name, end, room)?;
        }
        word /= 2;
    }
    Some(end)
}

// The lines of the fitted parts, where there is room.
pub fn put_fits(cursor: &mut Cursor, names: &[&[u8]], choice: Choice)
    requires { HasRoom (fit_lines (fitted (contents names.now) (bits (length names.now) choice.0))) cursor.old }
    ensures { Puts (fit_lines (fitted (contents names.now) (bits (length names.now) choice.0))) cursor.old cursor.new }
{
    let mut word = choice.0;
    for name in names {
        if word % 2 == 1 {
            put_fit(cursor, name);
        }
        word /= 2;
    }
}
