//! What verdicts on the entries of small plans tell of their rules.
ghost use Rattle.std.specs.Prelude.{◌≡◌, ◌<◌, ◌≤◌, length, IfOk};

use crate::networks::{HALVES, TWO_BOXES, check_rules, network};
use frontier_waves::FreeGate;
use plan_build::build;
use std::alloc::Global;
use std::process::Abort;
use std::sync::Arc;
use std::test::Fail;
use std::thread::Threads;
use suspect_book::{Book, Counted, Report, Verdict};

const ONE_BOX: &[u8] =
    b"atpg-net 1 4\nbox 1\nport 11 1\nport 12 1\nterm 1 11 send\nterm 2 12 receive\npermit 1 xxxx\nrule 5 1 10 * 1xx0 12\n";

const THIRD_TERMINAL: &[u8] = b"port 13 1\nterm 3 13 send\npermit 3 xxxx\n";

fn check_report(
    rt: &impl Abort,
    report: &Report,
    suspects: &[u32],
    guilty: &[u32],
    odd: Option<u32>,
    next: Option<u32>,
) {
    check_rules(rt, &report.suspects, suspects);
    check_rules(rt, &report.guilty, guilty);
    assert_eq!(rt; report.odd, odd);
    assert_eq!(rt; report.next, next);
}

// The book of the plan of a network with so many entries.
fn book_of<R: Abort + Threads + Sync>(
    rt: &R,
    alloc: Global,
    parts: &[&[u8]],
    entries: u32,
) -> Result<Book, Fail>
    ensures { IfOk result (λ book. length book.plan.plan.table ≡ entries) }
{
    let net = Arc::new(alloc, network(alloc, parts)?)?;
    let plan = Arc::new(alloc, build(rt, alloc, net, 16, 3, 1, &FreeGate)?)?;
    assert_eq!(rt; plan.table().len(), entries);
    Ok(Book::new(alloc, plan)?)
}

// Counts the first verdict of an entry.
fn count(rt: &impl Abort, book: &mut Book, entry: u32, verdict: Verdict)
    requires some { 0 < entry }
    requires inside { entry ≤ length book.old.plan.plan.table }
    ensures { book.new.plan ≡ book.old.plan }
{
    let counted = book.count(entry, verdict);
    assert!(rt; counted.is_ok());
}

#[test]
fn the_reserved_entry_decides_its_one_suspect(rt: HostRuntime) -> Result<(), Fail> {
    let alloc = rt.alloc();
    // The last verdict is that of the reserved entry where rules 1 and 3, or rule 3 alone, lose their packets.
    let cases: [(Verdict, &[u32], &[u32]); 2] = [
        (Verdict::Fail, &[1, 3], &[1]),
        (Verdict::Pass, &[3], &[3]),
    ];
    for (verdict, suspects, guilty) in cases {
        let mut book = book_of(&rt, alloc, &[TWO_BOXES, HALVES], 3)?;
        check_report(&rt, &book.findings(alloc)?, &[], &[], None, None);
        count(&rt, &mut book, 1, Verdict::Fail);
        check_report(&rt, &book.findings(alloc)?, &[1, 3], &[], None, Some(2));
        count(&rt, &mut book, 3, Verdict::Pass);
        check_report(&rt, &book.findings(alloc)?, &[1, 3], &[], None, Some(2));
        assert_eq!(rt; book.telling(), Some(2));
        count(&rt, &mut book, 2, verdict);
        assert_eq!(rt; book.telling(), None);
        check_report(&rt, &book.findings(alloc)?, suspects, guilty, None, None);
    }
    Ok(())
}

#[test]
fn one_rule_that_passes_and_fails_is_odd(rt: HostRuntime) -> Result<(), Fail> {
    let alloc = rt.alloc();
    let mut book = book_of(&rt, alloc, &[ONE_BOX, THIRD_TERMINAL], 2)?;
    count(&rt, &mut book, 1, Verdict::Pass);
    count(&rt, &mut book, 2, Verdict::Fail);
    check_report(&rt, &book.findings(alloc)?, &[], &[], Some(2), None);
    Ok(())
}

#[test]
fn the_first_verdict_stays(rt: HostRuntime) -> Result<(), Fail> {
    let alloc = rt.alloc();
    let mut book = book_of(&rt, alloc, &[ONE_BOX], 1)?;
    assert_eq!(rt; book.verdict(0), None);
    assert_eq!(rt; book.verdict(1), None);
    assert_eq!(rt; book.verdict(2), None);
    count(&rt, &mut book, 1, Verdict::Fail);
    let given = Counted {
        verdict: Verdict::Fail,
    };
    assert_eq!(rt; book.count(1, Verdict::Pass), Err(given));
    assert_eq!(rt; book.verdict(1), Some(Verdict::Fail));
    check_report(&rt, &book.findings(alloc)?, &[5], &[5], None, None);
    Ok(())
}
