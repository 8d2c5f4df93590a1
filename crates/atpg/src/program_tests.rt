//! The end of the program: its number, and what it tells on the sink for errors.

ghost use Rattle.std.specs.Prelude.{◌≤◌};

use super::program::program;
use byte_edges::{MemSink, MemSource, MemWords, WriteWhole};
use std::alloc::{AllocError, Global};
use std::test::Fail;

const NO_NETWORK: &str = "atpg-net 1 4\nbogus\n";

fn given(alloc: Global, line: &[&[u8]]) -> Result<MemWords, AllocError> {
    let mut words = Vec::new(alloc);
    for word in line {
        words.push(Vec::from_slice(alloc, word)?)?;
    }
    Ok(MemWords { words })
}

fn source(alloc: Global, input: &str) -> Result<MemSource, AllocError> {
    let bytes = Vec::from_slice(alloc, input.as_bytes())?;
    Ok(MemSource::new(bytes, 4096, Vec::new(alloc)))
}

fn sink(alloc: Global, most: usize, fails: &[u64]) -> Result<MemSink, AllocError>
    requires { 1 ≤ most }
{
    Ok(MemSink::new(alloc, most, Vec::from_slice(alloc, fails)?))
}

#[test]
fn tells_each_failure(rt: HostRuntime) -> Result<(), Fail> {
    let alloc = rt.alloc();
    let cases: [(&[&[u8]], &str, u8, &str); 4] = [
        (&[b"plan"], "atpg-net 1 1\n", 0, ""),
        (&[b"plan", b"--hops", b"0"], "", 2, "bad words at 3\n"),
        (&[b"plan", b"--hops\xff", b"5"], "", 2, "bad words at 2\n"),
        (&[b"plan"], NO_NETWORK, 6, "bad network at line 2: words\n"),
    ];
    for (line, input, number, told) in cases {
        let mut errors = sink(alloc, 4096, &[])?;
        let mut output = sink(alloc, 4096, &[])?;
        let ending = program(
            &rt,
            alloc,
            &given(alloc, line)?,
            &mut source(alloc, input)?,
            &mut output,
            &mut errors,
        );
        assert_eq!(rt; ending.number, number);
        assert_eq!(rt; ending.told, Ok(()));
        assert_eq!(rt; errors.taken(), told.as_bytes());
    }
    Ok(())
}

#[test]
fn the_number_tells_where_errors_fail(rt: HostRuntime) -> Result<(), Fail> {
    let alloc = rt.alloc();
    let mut errors = sink(alloc, 9, &[2])?;
    let ending = program(
        &rt,
        alloc,
        &given(alloc, &[])?,
        &mut source(alloc, "")?,
        &mut sink(alloc, 4096, &[])?,
        &mut errors,
    );
    assert_eq!(rt; ending.number, 2);
    assert_eq!(rt; ending.told, Err(WriteWhole::WriteFault { written: 9 }));
    assert_eq!(rt; errors.taken(), b"bad words".as_slice());
    Ok(())
}
