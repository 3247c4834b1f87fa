//! The set chooser for C: a static library with one function.
#![tactic(auto)]

ghost use Rattle.set_chooser.specs.Listing.{ListsForC, listing_for_c};
ghost use Rattle.set_chooser.specs.Promise.{RightListing};

/// Lists a sheet for C: the bytes written, or -13 where the output is too short, which is then untouched.
#[unsafe(no_mangle)]
pub extern "C" fn set_chooser_list(sheet: &[u8], out: &mut [u8]) -> i64
    ensures lists { ListsForC (listing_for_c sheet.now) out.old out.new result }
    ensures right { RightListing sheet.now (listing_for_c sheet.now) }
{
    set_chooser::set_chooser_list(sheet, out)
}
