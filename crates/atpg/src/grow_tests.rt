use super::status::Status;
use super::tests::{run_over, sink, source};
use std::test::Fail;

// The numbers come from another program, which calculates them without sets of headers.
const SEVEN: &str = "grown 7 17 1552 8004 1068 6936 186 10010\n";

#[test]
fn grows_and_reads_nothing(rt: HostRuntime) -> Result<(), Fail> {
    for words in [
        "grow --seed 7",
        "grow --seed 7 --workers 1",
        "grow --workers 8 --seed 7 --entries 8004",
    ] {
        let broken = source(rt.alloc(), "", 4096, &[1])?;
        let ended = run_over(&rt, rt.alloc(), words, broken, sink(rt.alloc(), 4096, &[])?)?;
        assert_eq!(rt; ended.status, Status::Done);
        assert!(rt; ended.wrote(SEVEN));
    }
    Ok(())
}

#[test]
fn has_more_entries_than_the_limit(rt: HostRuntime) -> Result<(), Fail> {
    let ended = run_over(
        &rt,
        rt.alloc(),
        "grow --seed 7 --entries 8003",
        source(rt.alloc(), "", 4096, &[])?,
        sink(rt.alloc(), 4096, &[])?,
    )?;
    assert_eq!(rt; ended.status, Status::TableFull { limit: 8003 });
    assert!(rt; ended.wrote(""));
    Ok(())
}

#[test]
fn write_fails_in_mid_line(rt: HostRuntime) -> Result<(), Fail> {
    let ended = run_over(
        &rt,
        rt.alloc(),
        "grow --seed 7",
        source(rt.alloc(), "", 4096, &[])?,
        sink(rt.alloc(), 8, &[2])?,
    )?;
    assert_eq!(rt; ended.status, Status::WriteFault { written: 8 });
    assert!(rt; ended.wrote("grown 7 "));
    Ok(())
}
