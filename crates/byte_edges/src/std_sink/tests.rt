use super::*;
use std::io;
use std::io::ErrorKind;
use std::test::Fail;

/// What a writer answers to one call.
#[derive(Clone, Copy)]
enum Answer {
    Takes(usize),
    Fault(ErrorKind),
}

/// A writer that answers as listed, and then takes nothing. It keeps the first byte of the latest piece that it was given.
#[derive(Drop)]
struct Listed<'a> {
    answers: &'a [Answer],
    calls: usize,
    first: Option<u8>,
}

impl Write for Listed<'_> {
    fn write(&mut self, buf: &[u8]) -> io::Result<usize> {
        self.calls = self.calls.saturating_add(1);
        self.first = buf.first().copied();
        let Some((answer, rest)) = self.answers.split_first() else {
            return Ok(0);
        };
        self.answers = rest;
        match *answer {
            Answer::Takes(n) => Ok(n.min(buf.len())),
            Answer::Fault(kind) => Err(io::Error::from(kind)),
        }
    }

    fn flush(&mut self) -> io::Result<()> {
        Ok(())
    }
}

#[test]
fn the_answer_of_a_writer_is_passed_on(rt: HostRuntime) -> Result<(), Fail> {
    let interrupted = Answer::Fault(ErrorKind::Interrupted);
    let mut in_time = [interrupted; 16];
    in_time[15] = Answer::Takes(2);
    let mut too_late = [interrupted; 17];
    too_late[16] = Answer::Takes(2);
    let failed = Err(EdgeFault::Failed);
    let no_memory = Err(EdgeFault::NoMemory);
    // The piece and the answers of the writer; then the answer, the calls and the count of faults.
    let rows: [(&[u8], &[Answer], Result<usize, EdgeFault>, usize, u64); 7] = [
        (b"abc", &[Answer::Takes(2)], Ok(2), 1, 0),
        (b"abc", &[], failed, 1, 1),
        (b"", &[], Ok(0), 1, 0),
        (
            b"abc",
            &[Answer::Fault(ErrorKind::BrokenPipe)],
            failed,
            1,
            1,
        ),
        (
            b"abc",
            &[Answer::Fault(ErrorKind::OutOfMemory)],
            no_memory,
            1,
            0,
        ),
        (b"abc", &in_time, Ok(2), 16, 0),
        (b"abc", &too_late, failed, 16, 1),
    ];
    for (piece, answers, want, calls, faults) in rows {
        let mut sink = StdSink::new(Listed {
            answers,
            calls: 0,
            first: None,
        });
        assert_eq!(rt; sink.write(piece), want);
        assert_eq!(rt; sink.inner.calls, calls);
        assert_eq!(rt; sink.inner.first, piece.first().copied());
        assert_eq!(rt; sink.faults, faults);
    }
    Ok(())
}
