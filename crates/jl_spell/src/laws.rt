//! What holds of spelled bytes: laws, each the contract of a function that does nothing.
ghost use Rattle.jl_spell.specs.Laws.{BodiesReadBack, FieldsReadBack, FramesReadBack, MessagesAscend, MessagesReadBack, RowsReadBack, VarintsAreShortest, VarintsReadBack};

/// A varint is read back, whatever follows it, and none of the same number is shorter.
pub fn varints_read_back()
    ensures back { VarintsReadBack }
    ensures shortest { VarintsAreShortest }
{}

/// Fields are read back, in their order and without a fault.
pub fn fields_read_back()
    ensures { FieldsReadBack }
{}

/// The fields of any message ascend by number, and are read back in this order and without a fault.
pub fn messages_read_back()
    ensures ascend { MessagesAscend }
    ensures back { MessagesReadBack }
{}

/// A row is read back.
pub fn rows_read_back()
    ensures { RowsReadBack }
{}

/// The rows of a frame are read back, in their order and without a fault.
pub fn bodies_read_back()
    ensures { BodiesReadBack }
{}

/// The bodies of frames, of at most 2^27 bytes each, are read back, in their order and without a fault.
pub fn frames_read_back()
    ensures { FramesReadBack }
{}
