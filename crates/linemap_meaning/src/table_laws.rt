//! What follows from the definitions of a table, for every table. Each function is a law: it does
//! nothing, and its contract is proved.

ghost use Rattle.linemap_meaning.specs.ChainLaws.{ChainGoesDown, OneWayDown};
ghost use Rattle.linemap_meaning.specs.FrameLaws.{FileThere, FirstFrame, FramesAtCalls, FramesInOrder, NoFrame, RowThere};
ghost use Rattle.linemap_meaning.specs.EncodingFits.{SoundFits8};
ghost use Rattle.linemap_meaning.specs.StretchLaws.{OrderKeepsAll, StretchesAnswer, StretchesAscend};
ghost use Rattle.linemap_meaning.specs.TableRangeLaws.{FollowingApart, NeighboursSuffice, OneFunction, OneSequence, OneUnit};

/// Of ranges that ascend by their begins, some two overlap exactly where two neighbours do.
pub fn neighbours_suffice()
    ensures { NeighboursSuffice }
{}

/// Ranges each of which begins at or above the end of the one before don't overlap.
pub fn following_apart()
    ensures { FollowingApart }
{}

/// At most one of sound units holds an address, so that the first to hold it is the only one.
pub fn one_unit()
    ensures { OneUnit }
{}

/// At most one of the functions of a sound unit holds an address.
pub fn one_function()
    ensures { OneFunction }
{}

/// At most one of the sequences of a sound unit holds an address.
pub fn one_sequence()
    ensures { OneSequence }
{}

/// The chain of calls is a way down through calls that hold the address, until none does.
pub fn chain_goes_down()
    ensures { ChainGoesDown }
{}

/// Where no two calls side by side overlap, the chain is the only such way.
pub fn one_way_down()
    ensures { OneWayDown }
{}

/// Frames carry the names of the calls, innermost first, and then the function's.
pub fn frames_in_order()
    ensures { FramesInOrder }
{}

/// The first frame is at the address's own location, each next one where the call before it was
/// written.
pub fn frames_at_calls()
    ensures { FramesAtCalls }
{}

/// The first frame of an address has the address's location.
pub fn first_frame()
    ensures { FirstFrame }
{}

/// An address without frames has no location.
pub fn no_frame()
    ensures { NoFrame }
{}

/// A sequence that holds an address has a row for it.
pub fn row_there()
    ensures { RowThere }
{}

/// Each location of a sound table has its file.
pub fn file_there()
    ensures { FileThere }
{}

/// Over a sound table an address is in one stretch, with its location, where it has a location, and
/// else in none.
pub fn stretches_answer()
    ensures { StretchesAnswer }
{}

/// The stretches between two ends ascend.
pub fn stretches_ascend()
    ensures { StretchesAscend }
{}

/// Putting stretches in order keeps each of them, as often as it occurs.
pub fn order_keeps_all()
    ensures { OrderKeepsAll }
{}

/// A sound table fits every encoding with addresses of 8 bytes.
pub fn sound_fits_8()
    ensures { SoundFits8 }
{}
