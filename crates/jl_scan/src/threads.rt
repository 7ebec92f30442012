// Published values are shared between threads by their cells. These functions are called by none: they are here so that
// this crate's own check shows it.
use crate::{Published, Scanned};
use jl_cells::{Cells, Pass};

fn share<X: Sync>(_shared: &X) {}

fn send<X: Send + Drop>(_sent: X) {}

fn cross<F: Scanned + Send + Sync>(cells: Cells<Published<F>>, pass: Pass<Published<F>>) {
    share(&cells);
    send(cells);
    send(pass);
}
