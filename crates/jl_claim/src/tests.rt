ghost use Rattle.std.specs.Prelude.{◌≡◌, ◌+◌, All, IfOk, IfSome, vec_len};
ghost use Rattle.jl_claim.specs.Standing.{new_seat};

use crate::{Board, Seat};
use std::alloc::{AllocError, Global};
use std::sync::atomic::AtomicU64;
use std::sync::atomic::Ordering::SeqCst;
use std::test::Fail;
use std::thread;

#[test]
fn one_seat_lowers_twice(rt: HostRuntime) -> Result<(), Fail> {
    let (board, mut seat) = Board::new(rt.alloc(), 3)?;
    assert_eq!(rt; board.claim(&mut seat), 0);
    assert_eq!(rt; board.claim(&mut seat), 1);
    assert_eq!(rt; board.claim(&mut seat), 2);
    board.lower(&mut seat, 2);
    board.lower(&mut seat, 1);
    assert_eq!(rt; board.least(&mut seat), 1);
    assert_eq!(rt; board.close(seat), (3, 1));
    Ok(())
}

#[test]
fn bound_of_none(rt: HostRuntime) -> Result<(), Fail> {
    let (board, mut seat) = Board::new(rt.alloc(), 0)?;
    assert_eq!(rt; board.claim(&mut seat), 0);
    assert_eq!(rt; board.least(&mut seat), 0);
    assert_eq!(rt; board.close(seat), (1, 0));
    Ok(())
}

#[test]
fn split_seat_sees_what_the_first_lowered(rt: HostRuntime) -> Result<(), Fail> {
    let (board, mut first) = Board::new(rt.alloc(), 3)?;
    let mut second = board.split(&mut first);
    assert_eq!(rt; board.claim(&mut first), 0);
    assert_eq!(rt; board.claim(&mut second), 1);
    board.lower(&mut first, 0);
    assert_eq!(rt; board.least(&mut second), 0);
    board.join(&mut first, second);
    assert_eq!(rt; board.close(first), (2, 0));
    Ok(())
}

const BOUND: u64 = 10_000;

// What a caller drew, with its seat, and whether another one was there at the same time.
#[derive(Drop)]
struct Drawn {
    seat: Seat,
    numbers: Vec<u64>,
    met: bool,
}

// Whether two callers came within so many turns.
fn met(entered: &AtomicU64) -> bool {
    entered.fetch_add(1, SeqCst);
    for _ in 0..50_000_000u64 {
        if entered.load(SeqCst) >= 2 {
            return true;
        }
        std::hint::spin_loop();
    }
    false
}

// All the seats that a board has.
fn all_seats(alloc: Global, board: &Board, mut first: Seat) -> Result<Vec<Seat>, AllocError>
    requires { first ≡ new_seat board.now BOUND 63 }
    ensures count { IfOk result (λ seats. vec_len seats ≡ 64) }
    ensures new { IfOk result (λ seats. All (λ seat. seat ≡ new_seat board.now BOUND 0) seats.items) }
{
    let mut seats = Vec::new(alloc);
    for _ in 0..63u64 {
        seats.push(board.split(&mut first))?;
    }
    seats.push(first)?;
    Ok(seats)
}

// Draws until a number isn't below the bound.
fn draw_all(
    alloc: Global,
    board: &Board,
    entered: &AtomicU64,
    mut seat: Seat,
) -> Result<Drawn, AllocError>
    requires { seat ≡ new_seat board.now BOUND 0 }
    ensures { IfOk result (λ drawn. (drawn.seat.board ≡ board.now) × (drawn.seat.seats ≡ 1) × (drawn.seat.room ≡ 0)) }
{
    let met = met(entered);
    let mut numbers = Vec::new(alloc);
    for _ in 0..u64::MAX {
        let number = board.claim(&mut seat);
        numbers.push(number)?;
        if number >= BOUND {
            break;
        }
    }
    Ok(Drawn { seat, numbers, met })
}

// All that was drawn, with the one seat that is left; or None, where there was no memory.
fn join_all(board: &Board, mut done: Vec<Result<Drawn, AllocError>>) -> Option<Drawn>
    requires { All (λ r. IfOk r (λ drawn. (drawn.seat.board ≡ board.now) × (drawn.seat.seats ≡ 1) × (drawn.seat.room ≡ 0))) done.items }
    ensures { IfSome result (λ drawn. (drawn.seat.board ≡ board.now) × (drawn.seat.seats ≡ vec_len done) × (drawn.seat.room ≡ 0)) }
{
    let Some(Ok(mut all)) = done.pop() else {
        return None;
    };
    while let Some(next) = done.pop() {
        let Ok(Drawn { seat, numbers, met }) = next else {
            return None;
        };
        board.join(&mut all.seat, seat);
        if all.numbers.extend_from_slice(&numbers).is_err() {
            return None;
        }
        all.met = all.met && met;
    }
    Some(all)
}

#[test]
fn each_number_is_drawn_once(rt: HostRuntime) -> Result<(), Fail> {
    let alloc = rt.alloc();
    let (board, first) = Board::new(alloc, BOUND)?;
    let entered = AtomicU64::new(0);
    let seats = all_seats(alloc, &board, first)?;
    let (shared, gate) = (&board, &entered);
    let done = thread::map_vec(
        &rt,
        seats,
        &|seat| -> Result<Drawn, AllocError>
            requires { seat ≡ new_seat shared.now BOUND 0 }
            ensures { IfOk result (λ drawn. (drawn.seat.board ≡ shared.entry.now) × (drawn.seat.seats ≡ 1) × (drawn.seat.room ≡ 0)) }
        { draw_all(alloc, shared, gate, seat) },
    )?;
    let Some(
        Drawn {
            seat,
            mut numbers,
            met,
        },
    ) = join_all(shared, done)
    else {
        panic!(rt; "no memory")
    };
    assert!(rt; met, "no other caller came");
    assert_eq!(rt; board.close(seat), (BOUND + 64, BOUND));
    numbers.sort()?;
    assert_eq!(rt; numbers.len() as u64, BOUND + 64);
    for (i, number) in numbers.iter().enumerate() {
        assert_eq!(rt; *number, i as u64);
    }
    Ok(())
}
