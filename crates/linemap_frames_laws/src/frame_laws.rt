//! What follows from the definitions. Each function is a law: it does nothing, and its contract is
//! proved.

ghost use Rattle.linemap_frames_laws.specs.LookupFrameLaws.{ChainsMeet, EntriesMeet, FramesMeet, FunctionsMeet, TablesMeet};

/// Where a sound table was recorded, the calls that an address is in are, one by one, the table's.
pub fn chains_meet()
    ensures { ChainsMeet }
{}

/// Where a sound table was recorded, the function of every address is the table's.
pub fn functions_meet()
    ensures { FunctionsMeet }
{}

/// The entry of that function then says what the table says of it; there is none where no function
/// holds the address.
pub fn entries_meet()
    ensures { EntriesMeet }
{}

/// Where a sound table was recorded, the frames of an address in a unit are, one by one, the
/// table's.
pub fn frames_meet()
    ensures { FramesMeet }
{}

/// Where this holds of each unit of a sound table, the frames of every address are, one by one, the
/// table's.
pub fn tables_meet<U>()
    ensures { TablesMeet U }
{}
