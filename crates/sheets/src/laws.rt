//! What is known of every sheet and what it says.
ghost use Rattle.sheets.specs.Says.{SaysOneThing, ReadAsItSays, SpelledByItsRecords};

/// A sheet says at most one thing.
pub fn a_sheet_says_one_thing()
    ensures { SaysOneThing }
{}

/// What a sheet without a fault is read as is what it says.
pub fn sheets_are_read_as_they_say()
    ensures { ReadAsItSays }
{}

/// A sheet that says something is, byte for byte, the spelling of its records and of the end.
pub fn sheets_are_spelled_by_their_records()
    ensures { SpelledByItsRecords }
{}
