use super::status::Status;
use super::tests::{TWO_BOXES, TWO_BOXES_PLAN, run_over, sink, source};
use net_text::TextFault;
use net_types::RuleId;
use std::alloc::Global;
use std::process::Abort;
use std::test::Fail;
use std::thread::Threads;

// A command, and how a trial of the two boxes ends, with the lines behind the plan.
#[derive(Drop)]
struct Trial {
    words: &'static str,
    status: Status,
    lines: &'static str,
}

const NONE_BAD: &str = "sent 1 pass\nsent 3 pass\nsuspects -\nguilty -\ndone 2 0\n";

const FIRST_BAD: &str = "sent 1 fail\nsent 3 pass\nsent 2 fail\nsuspects 1,3\nguilty 1\ndone 3 2\n";

const THIRD_BAD: &str = "sent 1 fail\nsent 3 pass\nsent 2 pass\nsuspects 3\nguilty 3\ndone 3 1\n";

fn done(words: &'static str, lines: &'static str) -> Trial {
    Trial {
        words,
        status: Status::Done,
        lines,
    }
}

fn check_trial<R: Threads + Sync + Abort>(
    rt: &R,
    alloc: Global,
    trial: &Trial,
) -> Result<(), Fail> {
    let input = source(alloc, TWO_BOXES, 4096, &[])?;
    let ended = run_over(rt, alloc, trial.words, input, sink(alloc, 4096, &[])?)?;
    assert_eq!(rt; ended.status, trial.status);
    let mut text = Vec::new(alloc);
    if trial.status == Status::Done {
        text.extend_from_slice(TWO_BOXES_PLAN.as_bytes())?;
        text.extend_from_slice(trial.lines.as_bytes())?;
    }
    assert_eq!(rt; ended.taken.as_slice(), text.as_slice());
    Ok(())
}

#[test]
fn names_suspects_and_guilty_rules(rt: HostRuntime) -> Result<(), Fail> {
    for trial in &[
        done("trial", NONE_BAD),
        done("trial --faults 1,3", FIRST_BAD),
        done("trial --faults 3,1 --workers 2", FIRST_BAD),
        done("trial --faults 1,1", FIRST_BAD),
        done("trial --workers 64 --faults 3", THIRD_BAD),
        done("trial --entries 3 --faults 3", THIRD_BAD),
    ] {
        check_trial(&rt, rt.alloc(), trial)?;
    }
    Ok(())
}

fn refused(words: &'static str, status: Status) -> Trial {
    Trial {
        words,
        status,
        lines: "",
    }
}

fn no_rule(number: u32) -> Status {
    Status::NoSuchRule {
        id: RuleId::of(number),
    }
}

#[test]
fn refuses_words_rules_and_tables(rt: HostRuntime) -> Result<(), Fail> {
    for trial in &[
        refused("trial --faults 9", no_rule(9)),
        refused("trial --faults 9,8", no_rule(9)),
        refused("trial --faults 1,4294967295,0,8", no_rule(4_294_967_295)),
        refused("trial --faults 9 --entries 2", no_rule(9)),
        refused(
            "trial --faults 3 --entries 2",
            Status::TableFull { limit: 2 },
        ),
        refused("trial --faults", Status::BadWords { at: 3 }),
        refused("trial --faults ,", Status::BadWords { at: 3 }),
        refused("trial --faults 1,", Status::BadWords { at: 3 }),
        refused("trial --faults 4294967296", Status::BadWords { at: 3 }),
        refused("trial --faults 1 --faults 3", Status::BadWords { at: 4 }),
        refused("trial --seed 1", Status::BadWords { at: 2 }),
        refused("plan --faults 1", Status::BadWords { at: 2 }),
    ] {
        check_trial(&rt, rt.alloc(), trial)?;
    }
    Ok(())
}

#[test]
fn a_faulty_network_comes_before_a_listed_rule(rt: HostRuntime) -> Result<(), Fail> {
    let alloc = rt.alloc();
    let input = source(alloc, "atpg-net 1 4\nbogus\n", 4096, &[])?;
    let ended = run_over(
        &rt,
        alloc,
        "trial --faults 9",
        input,
        sink(alloc, 4096, &[])?,
    )?;
    let bad_net = Status::BadNet {
        line: 2,
        fault: TextFault::Words,
    };
    assert_eq!(rt; ended.status, bad_net);
    assert!(rt; ended.wrote(""));
    Ok(())
}
