// Blocks are shared between workers: they may be sent to other threads, and looked at from several at once.
use crate::Block;

fn send<X: Send + Drop>(_x: X) {}

fn share<X: Sync>(_x: &X) {}

fn blocks(block: Block) {
    share(&block);
    send(block);
}
