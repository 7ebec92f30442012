// What a wave shares between threads, and what it sends to them. These functions are called by none: they are here so that
// this crate's own check shows it.
use crate::bench::Bench;
use jl_scan::{Scan, Scanned};
use jl_state::State;
use jl_tape::Tape;

fn share<X: Sync>(_shared: &X) {}

fn send<X: Send + Drop>(_sent: X) {}

fn send_state(state: State) {
    send(state);
}

fn share_state(state: &State) {
    share(state);
}

fn send_tape(tape: Tape) {
    send(tape);
}

fn share_scan<'a, F: Scanned + Send + Sync>(scan: &Scan<'a, F>) {
    share(scan);
}

fn send_bench<F: Scanned + Send + Sync, T: Drop + Send>(bench: Bench<F, T>) {
    send(bench);
}
