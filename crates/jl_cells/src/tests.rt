ghost use Rattle.std.specs.Prelude.{◌≡◌};

use crate::{Cells, Pass};
use std::alloc::{AllocError, Global};
use std::sync::atomic::AtomicU64;
use std::sync::atomic::Ordering::SeqCst;
use std::test::Fail;
use std::thread;

#[test]
fn first_value_stays(rt: HostRuntime) -> Result<(), Fail> {
    let alloc = rt.alloc();
    let cells: Cells<u64> = Cells::new(alloc, 3)?;
    let mut one = cells.pass(alloc)?;
    let mut other = cells.pass(alloc)?;
    assert_eq!(rt; cells.count(), 3);
    assert_eq!(rt; cells.look(&mut one, 1).copied(), None);
    assert!(rt; !one.knows(1));
    let first = *cells.put(&mut one, 1, Box::new(alloc, 7)?);
    let second = *cells.put(&mut other, 1, Box::new(alloc, 8)?);
    assert_eq!(rt; (first, second), (7, 7));
    assert!(rt; one.knows(1) && other.knows(1) && !other.knows(2));
    assert_eq!(rt; cells.look(&mut other, 1).copied(), Some(7));
    assert_eq!(rt; cells.look(&mut other, 2).copied(), None);
    cells.meets(&mut one, &mut other);
    Ok(())
}

const CALLERS: u64 = 4;

// What a caller found in each cell, and whether all the callers were there at once.
#[derive(Drop)]
struct Found {
    values: Vec<Option<u64>>,
    met: bool,
}

// Whether all callers came within so many turns.
fn met(entered: &AtomicU64) -> bool {
    entered.fetch_add(1, SeqCst);
    for _ in 0..50_000_000u64 {
        if entered.load(SeqCst) >= CALLERS {
            return true;
        }
        std::hint::spin_loop();
    }
    false
}

// Puts the number into each cell of the caller's share, and into the first, which all want.
fn put_share(
    alloc: Global,
    cells: &Cells<u64>,
    pass: &mut Pass<u64>,
    number: u64,
) -> Result<(), AllocError>
    requires { pass.old.cells ≡ cells.now }
    ensures { pass.new.cells ≡ cells.now }
{
    for i in 0..cells.count() {
        if i == 0 || i % CALLERS == number {
            cells.put(pass, i, Box::new(alloc, number)?);
        }
    }
    Ok(())
}

fn look_at_all(
    alloc: Global,
    cells: &Cells<u64>,
    pass: &mut Pass<u64>,
) -> Result<Vec<Option<u64>>, AllocError>
    requires { pass.old.cells ≡ cells.now }
{
    let mut values = Vec::new(alloc);
    for i in 0..cells.count() {
        values.push(cells.look(pass, i).copied())?;
    }
    Ok(values)
}

fn call(
    alloc: Global,
    cells: &Cells<u64>,
    entered: &AtomicU64,
    number: u64,
) -> Result<Found, AllocError> {
    let mut pass = cells.pass(alloc)?;
    let met = met(entered);
    put_share(alloc, cells, &mut pass, number)?;
    let values = look_at_all(alloc, cells, &mut pass)?;
    Ok(Found { values, met })
}

#[test]
fn later_pass_finds_what_others_put(rt: HostRuntime) -> Result<(), Fail> {
    let alloc = rt.alloc();
    let cells: Cells<u64> = Cells::new(alloc, 1000)?;
    let entered = AtomicU64::new(0);
    let numbers = [0, 1, 2, 3].to_vec(alloc)?;
    let (shared, gate) = (&cells, &entered);
    let done = thread::map_vec(&rt, numbers, &|number| call(alloc, shared, gate, number))?;
    let mut later = shared.pass(alloc)?;
    let values = look_at_all(alloc, shared, &mut later)?;
    for found in &done {
        let Ok(Found { values: seen, met }) = found else {
            panic!(rt; "no memory")
        };
        assert!(rt; *met, "not all callers came");
        for (mine, last) in seen.iter().zip(&values) {
            assert!(rt; mine.is_none() || mine == last, "{mine:?}, {last:?}");
        }
    }
    for (i, value) in values.iter().enumerate() {
        assert!(rt;
            value.is_some() && (i == 0 || *value == Some(i as u64 % CALLERS)),
            "cell {i}: {value:?}"
        );
    }
    Ok(())
}
