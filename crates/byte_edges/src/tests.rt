ghost use Rattle.std.specs.Prelude.{◌≤◌};

use crate::{
    Door, EdgeFault, Harbour, MemDoor, MemHarbour, MemLine, MemSink, MemSource, ReadAll, Sink,
    Source, StdSink, StdSource, WriteWhole, read_all, write_whole,
};
use std::alloc::{AllocError, Global};
use std::test::Fail;

const TEXT: &[u8] = b"atpg-plan 1 4 16\nidle 5\n";

fn mem_source(
    alloc: Global,
    bytes: &[u8],
    most: usize,
    fails: &[u64],
) -> Result<MemSource, AllocError>
    requires { 1 ≤ most }
{
    Ok(MemSource::new(bytes.to_vec(alloc)?, most, fails.to_vec(alloc)?))
}

#[test]
fn a_source_is_read_to_its_end(rt: HostRuntime) -> Result<(), Fail> {
    let alloc = rt.alloc();
    let rows: [(&[u8], bool, &[u64], usize, Result<&[u8], ReadAll>); 8] = [
        (TEXT, true, &[], 100, Ok(TEXT)),
        (TEXT, false, &[], 100, Ok(TEXT)),
        (TEXT, false, &[], 24, Ok(TEXT)),
        (TEXT, false, &[], 23, Err(ReadAll::TooLong)),
        (TEXT, true, &[1], 100, Err(ReadAll::ReadFault)),
        (TEXT, false, &[2], 100, Err(ReadAll::ReadFault)),
        (TEXT, false, &[9], 100, Ok(TEXT)),
        (b"", false, &[], 0, Ok(b"")),
    ];
    for (bytes, single, fails, max, want) in rows {
        let most = if single { 1 } else { 16 };
        let mut source = mem_source(alloc, bytes, most, fails)?;
        match (read_all(alloc, &mut source, max), want) {
            (Ok(got), Ok(want)) => assert_eq!(rt; got.as_slice(), want),
            (Err(got), Err(want)) => assert_eq!(rt; got, want),
            (got, _) => assert!(rt; false, "{got:?}"),
        }
    }
    Ok(())
}

#[test]
fn a_text_is_written_whole(rt: HostRuntime) -> Result<(), Fail> {
    let alloc = rt.alloc();
    let cut = Err(WriteWhole::WriteFault { written: 16 });
    let rows: [(bool, &[u64], Result<(), WriteWhole>, &[u8]); 4] = [
        (false, &[], Ok(()), TEXT),
        (true, &[], Ok(()), TEXT),
        (false, &[2], cut, b"atpg-plan 1 4 16"),
        (false, &[3, 9], Ok(()), TEXT),
    ];
    for (single, fails, want, taken) in rows {
        let most = if single { 1 } else { 16 };
        let mut sink = MemSink::new(alloc, most, fails.to_vec(alloc)?);
        assert_eq!(rt; write_whole(&mut sink, TEXT), want);
        assert_eq!(rt; sink.taken(), taken);
    }

    // All that is left goes at each write, so that there is no second one.
    let mut sink = MemSink::new(alloc, 100, [2].to_vec(alloc)?);
    assert_eq!(rt; write_whole(&mut sink, &[b'a'; 90]), Ok(()));
    assert_eq!(rt; sink.taken().len(), 90);
    Ok(())
}

#[test]
fn std_readers_and_writers_are_edges(rt: HostRuntime) -> Result<(), Fail> {
    let alloc = rt.alloc();
    let mut source = StdSource::new(TEXT);
    let Ok(bytes) = read_all(alloc, &mut source, TEXT.len()) else {
        return Err(Fail::from("not read"));
    };
    assert_eq!(rt; bytes.as_slice(), TEXT);
    let mut written = Vec::new(alloc);
    let mut sink = StdSink::new(&mut written);
    assert_eq!(rt; write_whole(&mut sink, &bytes), Ok(()));
    assert_eq!(rt; written.as_slice(), TEXT);
    Ok(())
}

/// A line that has these bytes to read.
fn mem_line(alloc: Global, bytes: &[u8]) -> Result<MemLine, AllocError> {
    let source = mem_source(alloc, bytes, 16, &[])?;
    Ok(MemLine::new(source, MemSink::new(alloc, 16, Vec::new(alloc))))
}

/// A door of two lines, which have `a` and `b` to read.
fn mem_door(alloc: Global, fails: &[u64]) -> Result<MemDoor, Fail> {
    let lines = vec![in alloc; mem_line(alloc, b"a")?, mem_line(alloc, b"b")?]?;
    Ok(MemDoor::new(alloc, lines, fails.to_vec(alloc)?))
}

/// Reads a byte of the next line, answers with it and gives the line back.
fn echo(door: &mut MemDoor) -> Result<Option<u8>, EdgeFault> {
    let Some(mut line) = door.accept()? else {
        return Ok(None);
    };
    let mut into = [0; 1];
    let n = line.read(&mut into)?;
    line.write(&into[..n])?;
    door.done(line);
    Ok(Some(into[0]))
}

#[test]
fn a_line_is_read_and_written_apart(rt: HostRuntime) -> Result<(), Fail> {
    let mut line = mem_line(rt.alloc(), b"xyz")?;
    let mut into = [0; 2];
    assert_eq!(rt; line.write(b"one"), Ok(3));
    assert_eq!(rt; line.read(&mut into), Ok(2));
    assert_eq!(rt; line.taken(), b"one".as_slice());
    assert_eq!(rt; line.write(b"two"), Ok(3));
    assert_eq!(rt; line.read(&mut into), Ok(1));
    assert_eq!(rt; into[0], b'z');
    assert_eq!(rt; line.taken(), b"onetwo".as_slice());
    Ok(())
}

fn may_cross<T: Send>(_: &T) {}

#[test]
fn a_door_gives_its_lines_in_order(rt: HostRuntime) -> Result<(), Fail> {
    let mut door = mem_door(rt.alloc(), &[1])?;
    may_cross(&door);
    assert_eq!(rt; echo(&mut door), Err(EdgeFault::Failed));
    assert_eq!(rt; door.served(0), None);
    assert_eq!(rt; echo(&mut door), Ok(Some(b'a')));
    assert_eq!(rt; door.served(0), Some(b"a".as_slice()));
    assert_eq!(rt; door.served(1), None);
    assert_eq!(rt; echo(&mut door), Ok(Some(b'b')));
    assert_eq!(rt; door.served(1), Some(b"b".as_slice()));
    assert_eq!(rt; echo(&mut door), Ok(None));
    assert_eq!(rt; door.served(2), None);
    Ok(())
}

#[test]
fn a_harbour_gives_its_doors_in_order(rt: HostRuntime) -> Result<(), Fail> {
    let alloc = rt.alloc();
    let doors = vec![in alloc; mem_door(alloc, &[])?]?;
    let mut harbour = MemHarbour::new(alloc, doors, [1].to_vec(alloc)?);
    assert!(rt; harbour.open(4000).is_err());
    for want in [Some(b'a'), None] {
        let Ok(mut door) = harbour.open(4000) else {
            return Err(Fail::from("no door"));
        };
        assert_eq!(rt; echo(&mut door), Ok(want));
    }
    Ok(())
}
