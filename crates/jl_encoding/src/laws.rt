//! What holds of the rows of items: laws, each the contract of a function that does nothing.
ghost use Rattle.jl_encoding.specs.Encoding.{EncodingsDecode, FramesAreShort};
ghost use Rattle.jl_encoding.specs.Handed.{RowsEndFrames, RowsGoUnderWay, MoreIsHanded, FramesAreHanded, FrontIsHanded, MoreRows, MoreHistory, MoreWidth, NarrowHaveRows};
ghost use Rattle.jl_encoding.specs.Items.{ItemsAreStated, LastTermsAreTheItems};
ghost use Rattle.jl_encoding.specs.WorkedRows.{MadeRows, NoItems, MadeFile, TwoToAFrame, EmptyPrefixLater, PassesOver, ThreeNames, TwoPrefixes, NoDatatypes, MadeFits};

/// The rows that items are given behind a history state these items, each behind what the history states, and no row
/// has a fault. Behind a statement's rows its terms are the last ones, and a namespace changes none.
pub fn items_are_stated()
    ensures stated { ItemsAreStated }
    ensures last_terms { LastTermsAreTheItems }
{}

/// Proper items that fit the form, and of which none is too wide, have a file, and it is decoded to these items without
/// a fault, under the strict profile as well. Each of its frames is shorter than a frame may be.
pub fn encodings_decode()
    ensures decode { EncodingsDecode }
    ensures short { FramesAreShort }
{}

/// Frames that are ended are handed on, and they are a front of the file: with the last frame they are all of it. A
/// further item ends the frame under way, or stands in it; its rows are those behind the rows before it, and it is the
/// first one that is too wide exactly where it is too wide behind these. Items none of which is too wide have rows.
pub fn frames_are_handed()
    ensures frames_end { RowsEndFrames }
    ensures under_way { RowsGoUnderWay }
    ensures more_handed { MoreIsHanded }
    ensures frames { FramesAreHanded }
    ensures front { FrontIsHanded }
    ensures more_rows { MoreRows }
    ensures more_history { MoreHistory }
    ensures more_width { MoreWidth }
    ensures narrow { NarrowHaveRows }
{}

/// Items, and their rows and bytes worked by hand: ids that are left out, two items to a frame, the empty prefix before
/// others and after them, a slot that is passed over, terms said again, and items that are too wide.
pub fn worked_rows()
    ensures made_rows { MadeRows }
    ensures no_items { NoItems }
    ensures made_file { MadeFile }
    ensures two_to_a_frame { TwoToAFrame }
    ensures empty_prefix_later { EmptyPrefixLater }
    ensures passes_over { PassesOver }
    ensures three_names { ThreeNames }
    ensures two_prefixes { TwoPrefixes }
    ensures no_datatypes { NoDatatypes }
    ensures made_fits { MadeFits }
{}
