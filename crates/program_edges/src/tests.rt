use super::{InputFault, arguments, bad_net_line, line, numbered_line, read_network, tell};
use byte_edges::{MemSink, MemSource, MemWords, WriteWhole};
use net_text::TextFault;
use net_types::NetFault;
use std::alloc::{AllocError, Global};
use std::test::Fail;

fn source(alloc: Global, input: &str) -> Result<MemSource, AllocError> {
    let bytes = Vec::from_slice(alloc, input.as_bytes())?;
    Ok(MemSource::new(bytes, 4096, Vec::new(alloc)))
}

#[test]
fn a_word_that_is_no_text(rt: HostRuntime) -> Result<(), Fail> {
    let alloc = rt.alloc();
    let mut words = Vec::new(alloc);
    words.push(Vec::from_slice(alloc, b"--port")?)?;
    words.push(Vec::from_slice(alloc, b"4\xff")?)?;
    let taken = arguments(&MemWords { words }, alloc)?;
    assert_eq!(rt; taken.len(), 2);
    assert_eq!(rt; taken[0].as_str(), "--port");
    assert_eq!(rt; taken[1].as_str(), "\u{fffd}");
    Ok(())
}

#[test]
fn reads_a_network(rt: HostRuntime) -> Result<(), Fail> {
    let alloc = rt.alloc();
    let net = read_network(alloc, &mut source(alloc, "atpg-net 1 4\nbox 7\n")?);
    assert_eq!(rt; net.map(|net| net.box_count()).ok(), Some(1));
    Ok(())
}

#[test]
fn names_the_faulty_line(rt: HostRuntime) -> Result<(), Fail> {
    let alloc = rt.alloc();
    let fault = read_network(alloc, &mut source(alloc, "atpg-net 1 4\nbox 7\nbox 7\n")?);
    let twice = InputFault::BadNet {
        line: 3,
        fault: TextFault::Net(NetFault::Twice),
    };
    assert_eq!(rt; fault.err(), Some(twice));
    Ok(())
}

#[test]
fn lines_of_statuses(rt: HostRuntime) -> Result<(), Fail> {
    assert_eq!(rt; line("read fault").as_slice(), b"read fault\n".as_slice());
    let numbered = numbered_line("more than ", 18_446_744_073_709_551_615, " entries");
    assert_eq!(rt;
        numbered.as_slice(),
        b"more than 18446744073709551615 entries\n".as_slice()
    );
    let bad = bad_net_line(2, TextFault::Letters);
    assert_eq!(rt;
        bad.as_slice(),
        b"bad network at line 2: letters\n".as_slice()
    );
    Ok(())
}

#[test]
fn tells_until_the_sink_fails(rt: HostRuntime) -> Result<(), Fail> {
    let alloc = rt.alloc();
    let mut errors = MemSink::new(alloc, 4, Vec::from_slice(alloc, &[2])?);
    let told = tell(&mut errors, b"door fault\n");
    assert_eq!(rt; told, Err(WriteWhole::WriteFault { written: 4 }));
    assert_eq!(rt; errors.taken(), b"door".as_slice());
    Ok(())
}
