//! A sheet's listing with memory of its own: what the entry for C calls.
ghost use Rattle.set_chooser.specs.Listing.{ListsForC, listing_for_c};
ghost use Rattle.set_chooser.specs.Promise.{RightListing};

use crate::listing::list;
use memories::{Remembered, Slots};
use rows::{Row, RowTables};
use tables::Place;

// The nodes, and the rows of each kind, that the entry works with; the program's own number of places is as large, and can be chosen there.
const NODES: usize = 1024;

// The slots of its remembering table.
const SLOTS: usize = 4096;

/// Lists a sheet as C wants it: the bytes written, or -13 where the output is too short, which is then untouched.
pub fn set_chooser_list(sheet: &[u8], out: &mut [u8]) -> i64
    ensures lists { ListsForC (listing_for_c sheet.now) out.old out.new result }
    ensures right { RightListing sheet.now (listing_for_c sheet.now) }
{
    let mut places = [Place::EMPTY; NODES];
    let mut mass = [Row::EMPTY; NODES];
    let mut wait = [Row::EMPTY; NODES];
    let mut mass_price = [Row::EMPTY; NODES];
    let mut slots: [Option<Remembered>; SLOTS] = [None; SLOTS];
    let mut rows = RowTables {
        mass: &mut mass,
        wait: &mut wait,
        mass_price: &mut mass_price,
    };
    match list(
        sheet,
        &mut places,
        &mut rows,
        &mut Slots::over(&mut slots),
        out,
    ) {
        Ok(written) => written as i64,
        Err(refusal) => -i64::from(refusal.number()),
    }
}
