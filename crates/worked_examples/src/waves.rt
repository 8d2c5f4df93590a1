//! The search by many workers, and that they work at one time.
ghost use Rattle.std.specs.Prelude.{◌≤◌};

use crate::networks::{HALVES, TWO_BOXES, check_rules, network};
use frontier_waves::{Found, FreeGate, Gate, all_entries, entries_from};
use net_types::{BoxId, TermId};
use path_table::TableFault;
use std::process::Abort;
use std::sync::atomic::{AtomicBool, AtomicU64, Ordering};
use std::test::Fail;

/// A second terminal that sends into the first box.
const SECOND_SENDER: &[u8] = b"port 13 1\nterm 3 13 send\npermit 3 0x\n";

// So many entries and classes, and packets of terminal 1 in just these two boxes or one of them.
fn check_found(rt: &impl Abort, found: &Found, entries: usize, classes: u64, boxes: [bool; 2]) {
    assert_eq!(rt; found.entries.len(), entries);
    assert_eq!(rt; found.classes, classes);
    for terminal in 0..4 {
        for number in 0..4 {
            let there = terminal == 1
                && match number {
                    1 => boxes[0],
                    2 => boxes[1],
                    _ => false,
                };
            assert_eq!(rt;
                found.touched.has(TermId::of(terminal), BoxId::of(number)),
                there
            );
        }
    }
}

#[test]
fn every_number_of_workers_finds_the_same(rt: HostRuntime) -> Result<(), Fail> {
    let alloc = rt.alloc();
    let net = network(alloc, &[TWO_BOXES, HALVES])?;
    let found = all_entries(&rt, alloc, &net, 16, 3, 1, &FreeGate)?;
    check_found(&rt, &found, 3, 6, [true, true]);
    let found = all_entries(&rt, alloc, &net, 16, 3, 2, &FreeGate)?;
    check_found(&rt, &found, 3, 6, [true, true]);
    let found = all_entries(&rt, alloc, &net, 16, 3, 64, &FreeGate)?;
    check_found(&rt, &found, 3, 6, [true, true]);
    // in the order of the waves, and in each of the classes
    let lists: [&[u32]; 3] = [&[1, 3], &[1, 4], &[2, 4]];
    for (entry, rules) in found.entries.iter().zip(lists) {
        check_rules(&rt, &entry.rules, rules);
    }
    // after one rule no packet has come to the second box
    let found = all_entries(&rt, alloc, &net, 1, 3, 2, &FreeGate)?;
    check_found(&rt, &found, 0, 3, [true, false]);
    // no class is grown
    let found = all_entries(&rt, alloc, &net, 0, 3, 2, &FreeGate)?;
    check_found(&rt, &found, 0, 1, [false, false]);
    Ok(())
}

#[test]
fn full_where_more_entries_are_found_than_the_limit(rt: HostRuntime) -> Result<(), Fail> {
    let alloc = rt.alloc();
    let net = network(alloc, &[TWO_BOXES, HALVES])?;
    match all_entries(&rt, alloc, &net, 16, 2, 2, &FreeGate) {
        Err(fault) => assert_eq!(rt; fault, TableFault::TableFull { limit: 2 }),
        Ok(_) => panic!(rt; "three entries are more than two"),
    }
    Ok(())
}

#[test]
fn of_the_terminals_that_are_listed_alone(rt: HostRuntime) -> Result<(), Fail> {
    let alloc = rt.alloc();
    let net = network(alloc, &[TWO_BOXES, HALVES, SECOND_SENDER])?;
    let found = entries_from(&rt, alloc, &net, &[TermId::of(1)], 16, 3, 2, &FreeGate)?;
    check_found(&rt, &found, 3, 6, [true, true]);
    let found = entries_from(&rt, alloc, &net, &[TermId::of(2)], 16, 0, 2, &FreeGate)?;
    check_found(&rt, &found, 0, 0, [false, false]);
    let found = entries_from(&rt, alloc, &net, &[], 16, 0, 2, &FreeGate)?;
    check_found(&rt, &found, 0, 0, [false, false]);
    let found = all_entries(&rt, alloc, &net, 16, 5, 2, &FreeGate)?;
    assert_eq!(rt; found.entries.len(), 5);
    assert_eq!(rt; found.classes, 10);
    assert!(rt; found.touched.has(TermId::of(3), BoxId::of(2)));
    Ok(())
}

/// Two terminals more that send into the first box just what terminal 1 sends.
const TWINS: &[u8] =
    b"port 13 1\nterm 3 13 send\npermit 3 0x\npermit 3 11\nport 14 1\nterm 4 14 send\npermit 4 0x\npermit 4 11\n";

/// Counts the classes that are grown.
#[derive(Drop)]
struct Counter {
    grown: AtomicU64,
}

impl Gate for Counter {
    fn enter(&self, _job: u64) {
        self.grown.fetch_add(1, Ordering::SeqCst);
    }

    fn leave(&self, _job: u64) {}
}

// All that the three senders' packets come to, and how many classes were grown for it.
fn check_twins(rt: &impl Abort, found: &Found, counter: &Counter, grown: u64) {
    assert_eq!(rt; found.entries.len(), 9);
    assert_eq!(rt; found.classes, 18);
    assert!(rt; found.touched.has(TermId::of(4), BoxId::of(2)));
    assert_eq!(rt; counter.grown.load(Ordering::SeqCst), grown);
}

#[test]
fn of_three_that_send_alike_one_is_searched(rt: HostRuntime) -> Result<(), Fail> {
    let alloc = rt.alloc();
    let net = network(alloc, &[TWO_BOXES, HALVES, TWINS])?;
    let counter = Counter {
        grown: AtomicU64::new(0),
    };
    let found = all_entries(&rt, alloc, &net, 16, 9, 2, &counter)?;
    check_twins(&rt, &found, &counter, 3);
    match all_entries(&rt, alloc, &net, 16, 8, 1, &FreeGate) {
        Err(fault) => assert_eq!(rt; fault, TableFault::TableFull { limit: 8 }),
        Ok(_) => panic!(rt; "nine entries are more than eight"),
    }
    Ok(())
}

#[test]
fn each_of_three_is_searched_where_there_are_workers(rt: HostRuntime) -> Result<(), Fail> {
    let alloc = rt.alloc();
    let net = network(alloc, &[TWO_BOXES, HALVES, TWINS])?;
    let counter = Counter {
        grown: AtomicU64::new(0),
    };
    let found = all_entries(&rt, alloc, &net, 16, 9, 3, &counter)?;
    check_twins(&rt, &found, &counter, 9);
    Ok(())
}

/// How often one who waits looks whether the other has come.
const MOST_TURNS: u64 = 1_000_000_000;

/// Whether two workers have come to the gate, and whether each has seen that the other is there too.
#[derive(Drop)]
struct Meeting {
    /// How many times class 0 passes before its worker waits.
    waves_before: u64,
    passed: AtomicU64,
    first: Place,
    second: Place,
}

#[derive(Drop)]
struct Place {
    come: AtomicBool,
    met: AtomicBool,
}

impl Place {
    fn new() -> Place {
        Place {
            come: AtomicBool::new(false),
            met: AtomicBool::new(false),
        }
    }

    // Comes, and waits for the other.
    fn wait_for(&self, other: &Place) {
        self.come.store(true, Ordering::SeqCst);
        for _ in 0..MOST_TURNS {
            if other.come.load(Ordering::SeqCst) {
                self.met.store(true, Ordering::SeqCst);
                return;
            }
        }
    }
}

impl Meeting {
    fn new(waves_before: u64) -> Meeting {
        Meeting {
            waves_before,
            passed: AtomicU64::new(0),
            first: Place::new(),
            second: Place::new(),
        }
    }

    fn check(&self, rt: &impl Abort) {
        assert!(rt;
            self.first.met.load(Ordering::SeqCst),
            "the first has not seen the second"
        );
        assert!(rt;
            self.second.met.load(Ordering::SeqCst),
            "the second has not seen the first"
        );
    }
}

impl Gate for Meeting {
    fn enter(&self, job: u64) {
        if job == 0 {
            if self.passed.fetch_add(1, Ordering::SeqCst) == self.waves_before {
                self.first.wait_for(&self.second);
            }
        } else if job == 1 {
            self.second.wait_for(&self.first);
        }
    }

    fn leave(&self, _job: u64) {}
}

#[test]
fn two_workers_meet_at_the_classes_of_two_senders(rt: HostRuntime) -> Result<(), Fail> {
    let alloc = rt.alloc();
    let net = network(alloc, &[TWO_BOXES, HALVES, SECOND_SENDER])?;
    let gate = Meeting::new(0);
    let found = all_entries(&rt, alloc, &net, 16, 5, 2, &gate)?;
    assert_eq!(rt; found.entries.len(), 5);
    gate.check(&rt);
    Ok(())
}

#[test]
fn two_workers_meet_in_the_second_wave_of_one_sender(rt: HostRuntime) -> Result<(), Fail> {
    let alloc = rt.alloc();
    let net = network(alloc, &[TWO_BOXES, HALVES])?;
    let gate = Meeting::new(1);
    let found = all_entries(&rt, alloc, &net, 16, 3, 2, &gate)?;
    assert_eq!(rt; found.entries.len(), 3);
    gate.check(&rt);
    Ok(())
}
