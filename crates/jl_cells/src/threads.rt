ghost use Rattle.std.specs.Prelude.{◌≡◌, ◌<◌, length, IsSome};
ghost use Rattle.jl_cells.specs.Knowledge.{Keeps};

// Threads may share cells, and send cells and passes to one another, also where the values borrow. These functions
// are called by none: they are here so that this crate's own check shows it.
use crate::{Cells, Pass};

fn share<X: Sync>(_shared: &X) {}

fn send<X: Send + Drop>(_sent: X) {}

fn cross<T: Drop + Send + Sync>(cells: Cells<T>, pass: Pass<T>) {
    share(&cells);
    send(cells);
    send(pass);
}

#[derive(Drop)]
struct Borrowed<'a> {
    bytes: &'a [u8],
}

fn cross_borrowing<'a>(cells: Cells<Borrowed<'a>>, pass: Pass<Borrowed<'a>>) {
    cross(cells, pass);
}

// A look after a put finds a value.
#[tactic(auto, using(crate::proofs::KnowledgeLemmas::learns_known))]
fn keep<'c, 'a>(
    cells: &'c Cells<Borrowed<'a>>,
    pass: &mut Pass<Borrowed<'a>>,
    value: Box<Borrowed<'a>>,
) -> Option<&'c Borrowed<'a>>
    requires { (pass.old.cells ≡ cells.now) × (0 < length cells.now) }
    ensures found { IsSome result }
    ensures kept { Keeps pass.old pass.new }
{
    cells.put(pass, 0, value);
    cells.look(pass, 0)
}
