//! What holds of the plain steps: laws, each the contract of a function that does nothing.
ghost use Rattle.jl_encode.specs.InStep.{NewDeskAgrees, RefusedAreTooWide, StepsAreRows};

/// An item that is put on a desk which stands for the rows before it has the rows that jl_encoding defines, spelled by
/// the bytes of its step, and behind them the desk stands for all rows. It is refused exactly where it is too wide. A new
/// desk stands for the options row.
pub fn steps_are_rows()
    ensures rows { StepsAreRows }
    ensures refused { RefusedAreTooWide }
    ensures first { NewDeskAgrees }
{}
