ghost use Rattle.std.specs.Prelude.{◌≡◌, ◌+◌, ◌<◌, ◌≤◌, ◌^◌, IfOk, vec_len};
ghost use Rattle.std.specs.List.{All};

use crate::{Board, ClaimSeat, MOST_SEATS, NoMemory};
use std::alloc::{AllocError, Global};
use std::test::Fail;
use std::thread;
use std::thread::Threads;

/// Draws so often from a board with one seat, and closes it.
fn drawn_alone(alloc: Global, n: u64, draws: usize) -> Result<(Vec<Option<u64>>, u64), NoMemory>
    requires { n < 2 ^ 63 }
{
    let (board, mut seats) = Board::new(alloc, n, 1)?;
    let mut answers = Vec::new(alloc);
    for _ in 0..draws {
        answers.push(board.draw(&mut seats[0]))?;
    }
    Ok((answers, board.close(seats)?.count))
}

#[test]
fn one_seat_draws_in_order(rt: HostRuntime) -> Result<(), Fail> {
    let (answers, count) = drawn_alone(rt.alloc(), 3, 5)?;
    assert_eq!(rt;
        answers.as_slice(),
        [Some(0), Some(1), Some(2), None, None].as_slice()
    );
    assert_eq!(rt; count, 3);
    let (answers, count) = drawn_alone(rt.alloc(), 0, 1)?;
    assert_eq!(rt; answers.as_slice(), [None].as_slice());
    assert_eq!(rt; count, 0);
    let (answers, count) = drawn_alone(rt.alloc(), (1 << 63) - 1, 1)?;
    assert_eq!(rt; answers.as_slice(), [Some(0)].as_slice());
    assert_eq!(rt; count, 1);
    Ok(())
}

#[test]
fn a_board_counts_the_draws_of_two_seats(rt: HostRuntime) -> Result<(), Fail> {
    let (board, mut seats) = Board::new(rt.alloc(), 10, 2)?;
    let first = board.draw(&mut seats[0]);
    let second = board.draw(&mut seats[1]);
    let third = board.draw(&mut seats[0]);
    assert_eq!(rt; [first, second, third], [Some(0), Some(1), Some(2)]);
    assert_eq!(rt; board.close(seats)?.count, 3);
    Ok(())
}

#[test]
fn a_board_has_at_most_64_seats(rt: HostRuntime) -> Result<(), Fail> {
    assert_eq!(rt; MOST_SEATS, 64);
    let (_board, seats) = Board::new(rt.alloc(), 10, 64)?;
    assert_eq!(rt; seats.len(), 64);
    Ok(())
}

/// What one thread drew, with its seat.
type Answer = Result<(ClaimSeat, Vec<u64>), NoMemory>;

fn draw_all(alloc: Global, board: &Board, mut seat: ClaimSeat) -> Answer
    requires { seat.board ≡ board.now }
    ensures { IfOk result (λ r. r.0.board ≡ board.now) }
{
    let mut numbers = Vec::new(alloc);
    while let Some(number) = board.draw(&mut seat) {
        numbers.push(number)?;
    }
    Ok((seat, numbers))
}

fn draw_in_threads<R: Threads + Sync>(
    rt: &R,
    alloc: Global,
    board: &Board,
    seats: Vec<ClaimSeat>,
) -> Result<Vec<Answer>, AllocError>
    requires { All (λ s. s.board ≡ board.now) seats.items }
    ensures len { IfOk result (λ v. vec_len v ≡ vec_len seats) }
    ensures each { IfOk result (λ v. All (λ a. IfOk a (λ r. r.0.board ≡ board.now)) v.items) }
{
    thread::map_vec(rt, seats, &|seat| draw_all(alloc, board, seat))
}

/// All numbers that the threads drew, from the least on, and the board's count.
fn close_with(
    alloc: Global,
    board: Board,
    answers: Vec<Answer>,
) -> Result<(Vec<u64>, u64), NoMemory>
    requires len { vec_len answers ≡ board.seats }
    requires each { All (λ a. IfOk a (λ r. r.0.board ≡ board)) answers.items }
{
    let mut seats = Vec::new(alloc);
    let mut numbers = Vec::new(alloc);
    for answer in answers {
        let (seat, drawn) = answer?;
        seats.push(seat)?;
        numbers.extend_from_slice(drawn.as_slice())?;
    }
    numbers.sort()?;
    Ok((numbers, board.close(seats)?.count))
}

#[test]
fn four_threads_draw_each_number_once(rt: HostRuntime) -> Result<(), Fail> {
    let (board, seats) = Board::new(rt.alloc(), 1000, 4)?;
    let answers = draw_in_threads(&rt, rt.alloc(), &board, seats)?;
    let (numbers, count) = close_with(rt.alloc(), board, answers)?;
    assert_eq!(rt; count, 1000);
    assert!(rt; numbers.iter().copied().eq(0..1000));
    Ok(())
}
