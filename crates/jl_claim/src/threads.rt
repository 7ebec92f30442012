// Threads may share and send a board, and send seats to one another. These functions are called by none: they are here
// so that this crate's own check shows it.
use crate::{Board, Seat};

fn share<X: Sync>(_shared: &X) {}

fn send<X: Send + Drop>(_sent: X) {}

fn cross(board: Board, seat: Seat) {
    share(&board);
    send(board);
    send(seat);
}
