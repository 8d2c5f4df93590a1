//! Shared desks over a network in which there is nothing.
ghost use Rattle.std.specs.Prelude.{◌≡◌, ◌≤◌, IfOk, vec_len};
ghost use Rattle.std.specs.List.{All};
ghost use Rattle.desk_turns.specs.Shared.{most_seats, most_room};

use crate::{Full, MOST_SEATS, Pass, SeatDesk, SharedDesk};
use desk_core::{Desk, Desks, Event, Refusal, Reply};
use net_types::NetBuilder;
use std::alloc::{AllocError, Global};
use std::sync::Wait;
use std::test::Fail;
use std::thread;
use std::thread::Threads;

/// A desk of this room, shared by so many.
fn opened(alloc: Global, room: u64, seats: u32) -> Result<(SharedDesk, Vec<Pass>), Fail>
    requires room { (1 ≤ room) × (room ≤ most_room) }
    requires seats { (1 ≤ seats) × (seats ≤ most_seats) }
    ensures desk { IfOk result (λ r. r.0.seats ≡ seats) }
    ensures len { IfOk result (λ r. vec_len r.1 ≡ seats) }
    ensures passes { IfOk result (λ r. All (λ p. p.desk.table ≡ r.0.table) r.1.items) }
{
    let net = NetBuilder::new(alloc, 1)?.finish()?;
    let desk = Desk::new(alloc, net, 255, room)?;
    let (desk, passes) = SharedDesk::of_desk(alloc, desk, seats)?;
    Ok((desk, passes))
}

/// The place of a call for the version, which is to be 0, or that of a Full.
fn current<R: Wait>(rt: &R, desk: &SharedDesk, pass: &mut Pass) -> Result<u64, Full>
    requires { pass.old.desk.table ≡ desk.now.table }
    ensures { pass.new.desk ≡ pass.old.desk }
{
    let called = desk.call(rt, pass, Event::Current)?;
    Ok(match called.reply {
        Reply::Now { version: 0 } => called.place,
        _ => u64::MAX,
    })
}

/// The last of some passes of a desk.
fn last(desk: &SharedDesk, passes: &mut Vec<Pass>) -> Result<Pass, Fail>
    requires { All (λ p. p.desk.table ≡ desk.now.table) passes.old.items }
    ensures pass { IfOk result (λ p. p.desk.table ≡ desk.now.table) }
    ensures rest { All (λ p. p.desk.table ≡ desk.now.table) passes.new.items }
{
    let pass = passes.pop().ok_or("a pass")?;
    let _ = desk;
    Ok(pass)
}

fn closed(alloc: Global, desk: SharedDesk, first: Pass, second: Pass) -> Result<Desk, Fail>
    requires seats { desk.seats ≡ 2 }
    requires passes { (first.desk.table ≡ desk.table) × (second.desk.table ≡ desk.table) }
{
    let mut passes = Vec::new(alloc);
    passes.push(first)?;
    passes.push(second)?;
    Ok(desk.close(passes).ok().ok_or("closed")?)
}

#[test]
fn two_passes_share_a_desk_of_three_entries(rt: HostRuntime) -> Result<(), Fail> {
    let (desk, mut passes) = opened(rt.alloc(), 3, 2)?;
    let mut second = last(&desk, &mut passes)?;
    let mut first = last(&desk, &mut passes)?;
    assert_eq!(rt; [first.number(), second.number()], [1, 2]);
    assert_eq!(rt; current(&rt, &desk, &mut first), Ok(0));
    assert_eq!(rt; current(&rt, &desk, &mut second), Ok(1));
    assert_eq!(rt; current(&rt, &desk, &mut first), Ok(2));
    assert_eq!(rt; current(&rt, &desk, &mut second), Err(Full { place: 3 }));
    assert_eq!(rt; current(&rt, &desk, &mut second), Err(Full { place: 3 }));
    assert_eq!(rt; current(&rt, &desk, &mut first), Err(Full { place: 4 }));
    let desk = closed(rt.alloc(), desk, first, second)?;
    assert_eq!(rt; desk.len(), 3);
    assert_eq!(rt; desk.entry(1).map(|entry| entry.caller), Some(2));
    Ok(())
}

#[test]
fn a_desk_has_at_most_64_passes(rt: HostRuntime) -> Result<(), Fail> {
    assert_eq!(rt; MOST_SEATS, 64);
    let (desk, mut passes) = opened(rt.alloc(), 1, 64)?;
    assert_eq!(rt; passes.len(), 64);
    let mut one = last(&desk, &mut passes)?;
    let mut other = last(&desk, &mut passes)?;
    assert_eq!(rt; [one.number(), other.number()], [64, 63]);
    assert_eq!(rt; current(&rt, &desk, &mut one), Ok(0));
    assert_eq!(rt; current(&rt, &desk, &mut other), Err(Full { place: 1 }));
    Ok(())
}

#[test]
fn a_seat_says_that_the_log_is_full(rt: HostRuntime) -> Result<(), Fail> {
    let (desk, mut passes) = opened(rt.alloc(), 1, 1)?;
    let mut pass = last(&desk, &mut passes)?;
    let mut seat = SeatDesk::new(&rt, &desk, &mut pass);
    let reply = seat.ask(Event::OpenRound);
    assert!(rt;
        matches!(
            reply,
            Reply::Opened {
                round: 1,
                version: 0
            }
        )
    );
    for _ in 0..2 {
        let reply = seat.ask(Event::Current);
        assert!(rt; matches!(reply, Reply::Refused(Refusal::LogFull { at: 1 })));
    }
    Ok(())
}

/// Calls so often, and answers with the pass and whether each was answered.
fn call_often<R: Wait>(rt: &R, desk: &SharedDesk, mut pass: Pass, times: u32) -> (Pass, bool)
    requires { pass.desk.table ≡ desk.now.table }
    ensures { result.0.desk.table ≡ desk.now.table }
{
    let mut all = true;
    for _ in 0..times {
        all = current(rt, desk, &mut pass).is_ok() && all;
    }
    (pass, all)
}

fn call_in_threads<R: Threads + Wait + Sync>(
    rt: &R,
    desk: &SharedDesk,
    passes: Vec<Pass>,
    times: u32,
) -> Result<Vec<(Pass, bool)>, AllocError>
    requires { All (λ p. p.desk.table ≡ desk.now.table) passes.items }
    ensures len { IfOk result (λ v. vec_len v ≡ vec_len passes) }
    ensures each { IfOk result (λ v. All (λ a. a.0.desk.table ≡ desk.now.table) v.items) }
{
    thread::map_vec(rt, passes, &|pass| call_often(rt, desk, pass, times))
}

/// How many entries the desk has, and whether all calls were answered.
fn close_all(
    alloc: Global,
    desk: SharedDesk,
    called: Vec<(Pass, bool)>,
) -> Result<(u64, bool), Fail>
    requires len { vec_len called ≡ desk.seats }
    requires each { All (λ a. a.0.desk.table ≡ desk.table) called.items }
{
    let mut passes = Vec::new(alloc);
    let mut all = true;
    for answer in called {
        let (pass, answered) = answer;
        passes.push(pass)?;
        all &= answered;
    }
    let desk = desk.close(passes).ok().ok_or("closed")?;
    Ok((desk.len(), all))
}

#[test]
fn four_threads_fill_the_room(rt: HostRuntime) -> Result<(), Fail> {
    let (desk, passes) = opened(rt.alloc(), 40, 4)?;
    let called = call_in_threads(&rt, &desk, passes, 10)?;
    assert_eq!(rt; close_all(rt.alloc(), desk, called)?, (40, true));
    Ok(())
}
