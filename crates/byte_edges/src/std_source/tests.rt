use super::*;
use std::io;
use std::io::ErrorKind;
use std::test::Fail;

/// What a reader answers to one call.
#[derive(Clone, Copy)]
enum Answer {
    Byte(u8),
    Fault(ErrorKind),
}

/// A reader that answers as listed, and then that it is at its end.
#[derive(Drop)]
struct Listed<'a> {
    answers: &'a [Answer],
    calls: usize,
}

impl Read for Listed<'_> {
    fn read(&mut self, buf: &mut [u8]) -> io::Result<usize> {
        self.calls = self.calls.saturating_add(1);
        let Some((answer, rest)) = self.answers.split_first() else {
            return Ok(0);
        };
        self.answers = rest;
        match *answer {
            Answer::Byte(byte) if !buf.is_empty() => {
                buf[0] = byte;
                Ok(1)
            }
            Answer::Byte(_) => Ok(0),
            Answer::Fault(kind) => Err(io::Error::from(kind)),
        }
    }
}

#[test]
fn the_answer_of_a_reader_is_passed_on(rt: HostRuntime) -> Result<(), Fail> {
    let interrupted = Answer::Fault(ErrorKind::Interrupted);
    let mut in_time = [interrupted; 16];
    in_time[15] = Answer::Byte(7);
    let mut too_late = [interrupted; 17];
    too_late[16] = Answer::Byte(7);
    let failed = Err(EdgeFault::Failed);
    let no_memory = Err(EdgeFault::NoMemory);
    // The answers of the reader; then the answer, the first byte and the calls, and the counts of faults, bytes and ends.
    let rows: [(&[Answer], Result<usize, EdgeFault>, u8, usize, [u64; 3]); 7] = [
        (&[Answer::Byte(7)], Ok(1), 7, 1, [0, 1, 0]),
        (&[], Ok(0), 0, 1, [0, 0, 1]),
        (
            &[Answer::Fault(ErrorKind::BrokenPipe)],
            failed,
            0,
            1,
            [1, 0, 0],
        ),
        (
            &[Answer::Fault(ErrorKind::WouldBlock)],
            failed,
            0,
            1,
            [1, 0, 0],
        ),
        (
            &[Answer::Fault(ErrorKind::OutOfMemory)],
            no_memory,
            0,
            1,
            [0, 0, 0],
        ),
        (&in_time, Ok(1), 7, 16, [0, 1, 0]),
        (&too_late, failed, 0, 16, [1, 0, 0]),
    ];
    for (answers, want, first, calls, counts) in rows {
        let mut source = StdSource::new(Listed { answers, calls: 0 });
        let mut into = [0; 4];
        assert_eq!(rt; source.read(&mut into), want);
        assert_eq!(rt; into[0], first);
        assert_eq!(rt; source.inner.calls, calls);
        let reads = source.reads;
        assert_eq!(rt; [reads.faults, reads.given, reads.ends], counts);
    }
    Ok(())
}
