//! Several workers: a gate sees that they decode at once, and that one of them goes on while another is held.
use super::*;
use std::sync::atomic::AtomicU64;
use std::sync::atomic::Ordering::SeqCst;

// Holds run 0 until so many runs were entered, or for many turns.
#[derive(Drop)]
struct Hold {
    wanted: u64,
    entered: AtomicU64,
    left_alone: AtomicU64,
}

impl Hold {
    fn comes(&self) -> bool {
        for _ in 0..50_000_000u64 {
            if self.entered.load(SeqCst) >= self.wanted {
                return true;
            }
            std::hint::spin_loop();
        }
        false
    }
}

impl Gate for Hold {
    fn enter(&self, _worker: u32, run: u64) {
        self.entered.fetch_add(1, SeqCst);
        if run == 0 && !self.comes() {
            self.left_alone.fetch_add(1, SeqCst);
        }
    }
}

// Whether two workers write this text of a file by runs of one frame, while run 0 is held until so many were entered.
fn meet<R: Threads + Sync>(
    rt: &R,
    alloc: Global,
    file: &[u8],
    wanted: u64,
    text: &[u8],
) -> Result<bool, AllocError> {
    let gate = Hold {
        wanted,
        entered: AtomicU64::new(0),
        left_alone: AtomicU64::new(0),
    };
    let words = ["nquads", "--workers=2", "--run=1", "f"];
    let left = served_by(rt, alloc, &words, file, [&[], &[], &[]], &gate)?;
    Ok(left.status == 0 && left.out.under_way() == text && gate.left_alone.load(SeqCst) == 0)
}

#[test]
fn two_workers_side_by_side(rt: HostRuntime) -> Result<(), Fail> {
    let alloc = rt.alloc();
    let mut file = bytes_of(alloc, ROWS[0].file)?;
    push_bytes(&mut file, REPEATED)?;
    assert!(rt; meet(&rt, alloc, &file, 2, b"<a> <a> <a> .\n<a> <a> <a> .\n")?);
    Ok(())
}

// A share that is fixed beforehand, and gives run 0's worker another run, doesn't pass.
#[test]
fn one_worker_goes_on_while_another_is_held(rt: HostRuntime) -> Result<(), Fail> {
    let alloc = rt.alloc();
    let mut file = bytes_of(alloc, ROWS[0].file)?;
    for _ in 0..3 {
        push_bytes(&mut file, REPEATED)?;
    }
    let text = b"<a> <a> <a> .\n<a> <a> <a> .\n<a> <a> <a> .\n<a> <a> <a> .\n";
    assert!(rt; meet(&rt, alloc, &file, 4, text)?);
    Ok(())
}
