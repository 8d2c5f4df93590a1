ghost use Rattle.std.specs.Prelude.{◌≤◌};

use super::run::run;
use super::status::Status;
use byte_edges::{MemSink, MemSource};
use net_text::TextFault;
use net_types::NetFault;
use std::alloc::{AllocError, Global};
use std::test::Fail;
use std::thread::Threads;

#[derive(Clone, Copy)]
struct Case {
    words: &'static str,
    input: &'static str,
    status: Status,
    output: &'static str,
}

const ONE_BOX: &str =
    "atpg-net 1 4\nbox 1\nport 11 1\nport 12 1\nterm 1 11 send\nterm 2 12 receive\npermit 1 xxxx\nrule 5 1 10 * 1xx0 12\n";

const ONE_BOX_PLAN: &str = "atpg-plan 1 4 16\nentry 1 1 2 1000 1110 1000 5\nprobe 1\nend 1 1 0 0\n";

const CHAIN: &str =
    "atpg-net 1 1\nbox 1\nport 101 1\nport 201 1\nbox 2\nport 102 2\nport 202 2\nbox 3\nport 103 3\nport 203 3\nbox 4\nport 104 4\nport 204 4\nbox 5\nport 105 5\nport 205 5\nbox 6\nport 106 6\nport 206 6\nbox 7\nport 107 7\nport 207 7\nbox 8\nport 108 8\nport 208 8\nbox 9\nport 109 9\nport 209 9\nbox 10\nport 110 10\nport 210 10\nbox 11\nport 111 11\nport 211 11\nbox 12\nport 112 12\nport 212 12\nbox 13\nport 113 13\nport 213 13\nbox 14\nport 114 14\nport 214 14\nbox 15\nport 115 15\nport 215 15\nbox 16\nport 116 16\nport 216 16\nlink 201 102\nlink 202 103\nlink 203 104\nlink 204 105\nlink 205 106\nlink 206 107\nlink 207 108\nlink 208 109\nlink 209 110\nlink 210 111\nlink 211 112\nlink 212 113\nlink 213 114\nlink 214 115\nlink 215 116\nterm 1 101 send\nterm 2 216 receive\npermit 1 x\nrule 1 1 1 101 x 201\nrule 2 2 1 102 x 202\nrule 3 3 1 103 x 203\nrule 4 4 1 104 x 204\nrule 5 5 1 105 x 205\nrule 6 6 1 106 x 206\nrule 7 7 1 107 x 207\nrule 8 8 1 108 x 208\nrule 9 9 1 109 x 209\nrule 10 10 1 110 x 210\nrule 11 11 1 111 x 211\nrule 12 12 1 112 x 212\nrule 13 13 1 113 x 213\nrule 14 14 1 114 x 214\nrule 15 15 1 115 x 215\nrule 16 16 1 116 x 216\n";

const LOOP: &str =
    "atpg-net 1 2\nbox 1\nport 11 1\nport 12 1\nport 13 1\nbox 2\nport 21 2\nport 22 2\nport 23 2\nlink 12 21\nlink 22 13\nterm 1 11 send\nterm 2 23 receive\npermit 1 xx\nrule 1 1 1 * xx 12\nrule 2 2 1 * 0x 22 1-\nrule 3 2 1 * 1x 23\n";

const FIVE: &str =
    "atpg-net 1 3\nbox 1\nport 11 1\nport 12 1\nterm 1 11 send\nterm 2 12 receive\npermit 1 xxx\nrule 1 1 1 * 000 12\nrule 2 1 1 * 001 12\nrule 3 1 1 * 010 12\nrule 4 1 1 * 011 12\nrule 5 1 1 * 1xx 12\n";

pub(super) const TWO_BOXES: &str =
    "atpg-net 1 2\nbox 1\nport 11 1\nport 12 1\nbox 2\nport 21 2\nport 22 2\nlink 12 21\nterm 1 11 send\nterm 2 22 receive\npermit 1 0x\npermit 1 11\nrule 1 1 1 * 0x 12\nrule 2 1 1 * 1x 12\nrule 3 2 1 * x0 22\nrule 4 2 1 * x1 22\n";

pub(super) const TWO_BOXES_PLAN: &str =
    "atpg-plan 1 2 16\nentry 1 1 2 00 00 00 1,3\nentry 2 1 2 01 01 01 1,4\nentry 3 1 2 11 11 11 2,4\nprobe 1\nprobe 3\nreserved 2\nend 3 2 1 0\n";

fn cases() -> [Case; 42] {
    [
        Case {
            words: "plan",
            input: ONE_BOX,
            status: Status::Done,
            output: ONE_BOX_PLAN,
        },
        Case {
            words: "plan",
            input: "atpg-net 1 4\nbox 1\nport 11 1\nport 12 1\nrule 5 1 10 * 1xx0 12\n",
            status: Status::Done,
            output: "atpg-plan 1 4 16\nidle 5\nend 0 0 0 1\n",
        },
        Case {
            words: "plan",
            input: "# lab\r\n\r\natpg-net 1 4\r\n\r\nbox 1\r\n\r\nport 11 1\r\n\r\nport 12 1\r\n\r\nterm 1 11 send\r\n\r\nterm 2 12 receive\r\n\r\npermit 1 xxxx\r\n\r\nrule 5 1 10 * 1xx0 12",
            status: Status::Done,
            output: ONE_BOX_PLAN,
        },
        Case {
            words: "plan",
            input: "atpg-net 1 4\nbox 1\nport 11 1\nport 12 1\nterm 1 11 send\nterm 2 12 receive\npermit 1 xxxx\nrule 5 1 10 * 1xx0 12\nrule 6 1 9 * 1x00 12\n",
            status: Status::Done,
            output: "atpg-plan 1 4 16\nentry 1 1 2 1000 1110 1000 5\nprobe 1\nidle 6\nend 1 1 0 1\n",
        },
        Case {
            words: "plan",
            input: "atpg-net 1 4\nbox 1\nport 11 1\nport 12 1\nterm 1 11 send\nterm 2 12 receive\nrule 5 1 10 * 1xx0 12\n",
            status: Status::Done,
            output: "atpg-plan 1 4 16\nidle 5\nend 0 0 0 1\n",
        },
        Case {
            words: "plan",
            input: "atpg-net 1 4\nbox 1\nport 11 1\nport 12 1\nterm 1 11 send\nterm 2 12 receive\npermit 1 xxxx\nrule 5 1 10 * 1xx0 12\nrule 3 1 10 * 11xx 12\n",
            status: Status::Done,
            output: "atpg-plan 1 4 16\nentry 1 1 2 1100 1111 1100 3\nentry 2 1 2 1000 1010 1000 5\nprobe 1\nprobe 2\nend 2 2 0 0\n",
        },
        Case {
            words: "plan --hops 16",
            input: CHAIN,
            status: Status::Done,
            output: "atpg-plan 1 1 16\nentry 1 1 2 0 1 0 1,2,3,4,5,6,7,8,9,10,11,12,13,14,15,16\nprobe 1\nend 1 1 0 0\n",
        },
        Case {
            words: "plan --hops 15",
            input: CHAIN,
            status: Status::Done,
            output: "atpg-plan 1 1 15\nidle 1\nidle 2\nidle 3\nidle 4\nidle 5\nidle 6\nidle 7\nidle 8\nidle 9\nidle 10\nidle 11\nidle 12\nidle 13\nidle 14\nidle 15\nidle 16\nend 0 0 0 16\n",
        },
        Case {
            words: "plan",
            input: "atpg-net 1 4\nbox 1\nport 11 1\nport 12 1\nbox 2\nport 21 2\nport 22 2\nlink 12 21\nterm 1 11 send\nterm 2 22 receive\npermit 1 x0xx\nrule 1 1 1 11 0xxx 12 -1--\nrule 2 2 1 21 x1x1 22\n",
            status: Status::Done,
            output: "atpg-plan 1 4 16\nentry 1 1 2 0001 0011 0101 1,2\nprobe 1\nend 1 1 0 0\n",
        },
        Case {
            words: "plan",
            input: LOOP,
            status: Status::Done,
            output: "atpg-plan 1 2 16\nentry 1 1 2 00 01 10 1,2,1,3\nentry 2 1 2 10 11 10 1,3\nprobe 1\nreserved 2\nend 2 1 1 0\n",
        },
        Case {
            words: "plan --hops 3",
            input: LOOP,
            status: Status::Done,
            output: "atpg-plan 1 2 3\nentry 1 1 2 10 11 10 1,3\nprobe 1\nidle 2\nend 1 1 0 1\n",
        },
        Case {
            words: "plan --workers 65",
            input: TWO_BOXES,
            status: Status::BadWords { at: 3 },
            output: "",
        },
        Case {
            words: "plan --workers 0",
            input: TWO_BOXES,
            status: Status::BadWords { at: 3 },
            output: "",
        },
        Case {
            words: "plan",
            input: "atpg-net 1 4\nbox 1\nport 11 1\nport 12 1\nterm 1 11 send\nterm 2 12 receive\npermit 1 xxxx\nrule 5 1 10 99 1xx0 12\nbogus\n",
            status: Status::BadNet {
                line: 8,
                fault: TextFault::Net(NetFault::Unknown),
            },
            output: "",
        },
        Case {
            words: "plan --entries 5",
            input: FIVE,
            status: Status::Done,
            output: "atpg-plan 1 3 16\nentry 1 1 2 000 000 000 1\nentry 2 1 2 001 001 001 2\nentry 3 1 2 010 010 010 3\nentry 4 1 2 011 011 011 4\nentry 5 1 2 100 111 100 5\nprobe 1\nprobe 2\nprobe 3\nprobe 4\nprobe 5\nend 5 5 0 0\n",
        },
        Case {
            words: "plan --entries 4",
            input: FIVE,
            status: Status::TableFull { limit: 4 },
            output: "",
        },
        Case {
            words: "",
            input: ONE_BOX,
            status: Status::BadWords { at: 1 },
            output: "",
        },
        Case {
            words: "plan --hops 0",
            input: ONE_BOX,
            status: Status::BadWords { at: 3 },
            output: "",
        },
        Case {
            words: "plan --hops",
            input: ONE_BOX,
            status: Status::BadWords { at: 3 },
            output: "",
        },
        Case {
            words: "plan --hops 4 --hops 5",
            input: ONE_BOX,
            status: Status::BadWords { at: 4 },
            output: "",
        },
        Case {
            words: "plan --seed 1",
            input: ONE_BOX,
            status: Status::BadWords { at: 2 },
            output: "",
        },
        Case {
            words: "plan --hops 255",
            input: LOOP,
            status: Status::Done,
            output: "atpg-plan 1 2 255\nentry 1 1 2 00 01 10 1,2,1,3\nentry 2 1 2 10 11 10 1,3\nprobe 1\nreserved 2\nend 2 1 1 0\n",
        },
        Case {
            words: "plan --hops 256",
            input: LOOP,
            status: Status::BadWords { at: 3 },
            output: "",
        },
        Case {
            words: "plan --entries 1048576",
            input: LOOP,
            status: Status::Done,
            output: "atpg-plan 1 2 16\nentry 1 1 2 00 01 10 1,2,1,3\nentry 2 1 2 10 11 10 1,3\nprobe 1\nreserved 2\nend 2 1 1 0\n",
        },
        Case {
            words: "plan --entries 1048577",
            input: LOOP,
            status: Status::BadWords { at: 3 },
            output: "",
        },
        Case {
            words: "upgrade",
            input: ONE_BOX,
            status: Status::Done,
            output: "atpg-net 2 4\nbox 1\nport 11 1\nport 12 1\nterm 1 11 send\nterm 2 12 receive\npermit 1 xxxx\nrule 5 1 10 * 1xx0 12\n",
        },
        Case {
            words: "plan",
            input: "atpg-net 2 4\nbox 1\nport 11 1\nport 12 1\nterm 1 11 send\nterm 2 12 receive\npermit 1 xxxx\nrule 5 1 10 * 1xx0 12\nforbid 1 xx00\n",
            status: Status::Done,
            output: "atpg-plan 1 4 16\nentry 1 1 2 1010 1110 1010 5\nprobe 1\nend 1 1 0 0\n",
        },
        Case {
            words: "plan",
            input: "atpg-net 2 4\nbox 1\nport 11 1\nport 12 1\nterm 1 11 send\nterm 2 12 receive\npermit 1 xxxx\nrule 5 1 10 * 1xx0 12\nforbid 1 xxxx\n",
            status: Status::Done,
            output: "atpg-plan 1 4 16\nidle 5\nend 0 0 0 1\n",
        },
        Case {
            words: "plan",
            input: "atpg-net 1 4\nbox 1\nport 11 1\nport 12 1\nterm 1 11 send\nterm 2 12 receive\npermit 1 xxxx\nrule 5 1 10 * 1xx0 12\nforbid 1 xx00\n",
            status: Status::BadNet {
                line: 9,
                fault: TextFault::Words,
            },
            output: "",
        },
        Case {
            words: "plan",
            input: "atpg-net 2 2\nbox 1\nport 11 1\nport 12 1\nbox 2\nport 21 2\nport 22 2\nlink 12 21\nterm 1 11 send\nterm 2 22 receive\npermit 1 xx\nrule 1 1 1 * xx 12 @b2,b1\nrule 2 2 1 * 1x 22\n",
            status: Status::Done,
            output: "atpg-plan 1 2 16\nentry 1 1 2 01 11 10 1,2\nprobe 1\nend 1 1 0 0\n",
        },
        Case {
            words: "plan",
            input: "atpg-net 2 2\nbox 1\nport 11 1\nport 12 1\nbox 2\nport 21 2\nport 22 2\nlink 12 21\nterm 1 11 send\nterm 2 22 receive\npermit 1 xx\nrule 1 1 1 * xx 12 @b1,b1\nrule 2 2 1 * 1x 22\n",
            status: Status::Done,
            output: "atpg-plan 1 2 16\nentry 1 1 2 10 11 11 1,2\nprobe 1\nend 1 1 0 0\n",
        },
        Case {
            words: "plan",
            input: "atpg-net 2 2\nbox 1\nport 11 1\nport 12 1\nbox 2\nport 21 2\nport 22 2\nlink 12 21\nterm 1 11 send\nterm 2 22 receive\npermit 1 xx\nrule 1 1 1 * xx 12 @b3,b1\nrule 2 2 1 * 1x 22\n",
            status: Status::BadNet {
                line: 12,
                fault: TextFault::Letters,
            },
            output: "",
        },
        Case {
            words: "plan",
            input: "atpg-net 1 2\nbox 1\nport 11 1\nport 12 1\nbox 2\nport 21 2\nport 22 2\nlink 12 21\nterm 1 11 send\nterm 2 22 receive\npermit 1 xx\nrule 1 1 1 * xx 12 @b2,b1\nrule 2 2 1 * 1x 22\n",
            status: Status::BadNet {
                line: 12,
                fault: TextFault::Letters,
            },
            output: "",
        },
        Case {
            words: "upgrade --hops 5",
            input: ONE_BOX,
            status: Status::BadWords { at: 2 },
            output: "",
        },
        Case {
            words: "grow",
            input: ONE_BOX,
            status: Status::BadWords { at: 2 },
            output: "",
        },
        Case {
            words: "grow --hops 4",
            input: ONE_BOX,
            status: Status::BadWords { at: 4 },
            output: "",
        },
        Case {
            words: "grow --seed 18446744073709551616",
            input: ONE_BOX,
            status: Status::BadWords { at: 3 },
            output: "",
        },
        Case {
            words: "shrink --seed 7",
            input: ONE_BOX,
            status: Status::BadWords { at: 1 },
            output: "",
        },
        Case {
            words: "plan",
            input: "",
            status: Status::BadNet {
                line: 1,
                fault: TextFault::NoHead,
            },
            output: "",
        },
        Case {
            words: "plan",
            input: "\n\n\n",
            status: Status::BadNet {
                line: 4,
                fault: TextFault::NoHead,
            },
            output: "",
        },
        Case {
            words: "plan",
            input: "# site, destination address only\natpg-net 1 32\n\nbox 1\nport 11 1   # subnet 10.1/16\nport 12 1\nbox 2\nport 21 2\nport 22 2   # subnet 10.2/16\nlink 12 21\nterm 1 11 both\nterm 2 22 both\npermit 1 xxxxxxxxxxxxxxxxxxxxxxxxxxxxxxxx\npermit 2 xxxxxxxxxxxxxxxxxxxxxxxxxxxxxxxx\nrule 101 1 16 * 0000101000000010xxxxxxxxxxxxxxxx 12\nrule 102 1 16 * 0000101000000001xxxxxxxxxxxxxxxx 11\nrule 201 2 16 * 0000101000000001xxxxxxxxxxxxxxxx 21\nrule 202 2 16 * 0000101000000010xxxxxxxxxxxxxxxx 22\nrule 203 2 24 * 000010100000001011111111xxxxxxxx drop\n",
            status: Status::Done,
            output: "atpg-plan 1 32 16\nentry 1 1 2 00001010000000100000000000000000 00001010000000101111111011111111 00001010000000100000000000000000 101,202\nentry 2 1 1 00001010000000010000000000000000 00001010000000011111111111111111 00001010000000010000000000000000 102\nentry 3 2 1 00001010000000010000000000000000 00001010000000011111111111111111 00001010000000010000000000000000 201,102\nentry 4 2 2 00001010000000100000000000000000 00001010000000101111111011111111 00001010000000100000000000000000 202\nprobe 1\nprobe 3\nreserved 2\nreserved 4\nidle 203\nend 4 2 2 1\n",
        },
        Case {
            words: "plan",
            input: "atpg-net 1 128\nbox 1\nport 11 1\nport 12 1\nterm 1 11 send\nterm 2 12 receive\npermit 1 xxxxxxxxxxxxxxxxxxxxxxxxxxxxxxxxxxxxxxxxxxxxxxxxxxxxxxxxxxxxxxxxxxxxxxxxxxxxxxxxxxxxxxxxxxxxxxxxxxxxxxxxxxxxxxxxxxxxxxxxxxxxxxxx\nrule 1 1 2 * 11111111111111111111111111111111111111111111111111111111111111111111111111111111111111111111111111111111111111111111111111111111 drop\nrule 2 1 1 * xxxxxxxxxxxxxxxxxxxxxxxxxxxxxxxxxxxxxxxxxxxxxxxxxxxxxxxxxxxxxxxxxxxxxxxxxxxxxxxxxxxxxxxxxxxxxxxxxxxxxxxxxxxxxxxxxxxxxxxxxxxxxxxx 12\n",
            status: Status::Done,
            output: "atpg-plan 1 128 16\nentry 1 1 2 00000000000000000000000000000000000000000000000000000000000000000000000000000000000000000000000000000000000000000000000000000000 11111111111111111111111111111111111111111111111111111111111111111111111111111111111111111111111111111111111111111111111111111110 00000000000000000000000000000000000000000000000000000000000000000000000000000000000000000000000000000000000000000000000000000000 2\nprobe 1\nidle 1\nend 1 1 0 1\n",
        },
    ]
}

fn words_of(alloc: Global, line: &str) -> Result<Vec<String>, AllocError> {
    let mut words = Vec::new(alloc);
    for word in line.split_whitespace() {
        words.push(String::from_str(alloc, word)?)?;
    }
    Ok(words)
}

pub(crate) fn source(
    alloc: Global,
    input: &str,
    most: usize,
    fails: &[u64],
) -> Result<MemSource, AllocError>
    requires { 1 ≤ most }
{
    Ok(MemSource::new(
        Vec::from_slice(alloc, input.as_bytes())?,
        most,
        Vec::from_slice(alloc, fails)?,
    ))
}

#[derive(Drop)]
pub(crate) struct Ran {
    pub(crate) status: Status,
    pub(crate) taken: Vec<u8>,
}

impl Ran {
    pub(crate) fn wrote(&self, text: &str) -> bool {
        self.taken.as_slice() == text.as_bytes()
    }
}

pub(crate) fn run_over<R: Threads + Sync>(
    rt: &R,
    alloc: Global,
    line: &str,
    mut source: MemSource,
    mut sink: MemSink,
) -> Result<Ran, AllocError> {
    let words = words_of(alloc, line)?;
    let status = run(rt, alloc, &words, &mut source, &mut sink);
    let taken = Vec::from_slice(alloc, sink.taken())?;
    Ok(Ran { status, taken })
}

pub(crate) fn sink(alloc: Global, most: usize, fails: &[u64]) -> Result<MemSink, AllocError>
    requires { 1 ≤ most }
{
    Ok(MemSink::new(alloc, most, Vec::from_slice(alloc, fails)?))
}

/// Runs one case over a source and a sink that never fail.
fn run_case<R: Threads + Sync>(rt: &R, alloc: Global, case: &Case) -> Result<Ran, AllocError> {
    let input = source(alloc, case.input, 4096, &[])?;
    run_over(rt, alloc, case.words, input, sink(alloc, 4096, &[])?)
}

#[test]
fn answers_and_writes(rt: HostRuntime) -> Result<(), Fail> {
    for case in &cases() {
        let ended = run_case(&rt, rt.alloc(), case)?;
        assert_eq!(rt; ended.status, case.status);
        assert!(rt; ended.wrote(case.output));
    }
    Ok(())
}

#[test]
fn any_number_of_workers_writes_the_same(rt: HostRuntime) -> Result<(), Fail> {
    for words in [
        "plan",
        "plan --workers 1",
        "plan --workers 2",
        "plan --workers 7",
        "plan --workers 64",
    ] {
        let case = Case {
            words,
            input: TWO_BOXES,
            status: Status::Done,
            output: TWO_BOXES_PLAN,
        };
        let ended = run_case(&rt, rt.alloc(), &case)?;
        assert_eq!(rt; ended.status, case.status);
        assert!(rt; ended.wrote(case.output));
    }
    Ok(())
}

#[test]
fn goes_in_pieces(rt: HostRuntime) -> Result<(), Fail> {
    let input = source(rt.alloc(), ONE_BOX, 1, &[])?;
    let ended = run_over(&rt, rt.alloc(), "plan", input, sink(rt.alloc(), 1, &[])?)?;
    assert_eq!(rt; ended.status, Status::Done);
    assert_eq!(rt; ended.taken.as_slice(), ONE_BOX_PLAN.as_bytes());
    Ok(())
}

#[test]
fn write_fails_in_mid_text(rt: HostRuntime) -> Result<(), Fail> {
    let input = source(rt.alloc(), ONE_BOX, 4096, &[])?;
    let ended = run_over(&rt, rt.alloc(), "plan", input, sink(rt.alloc(), 16, &[2])?)?;
    assert_eq!(rt; ended.status, Status::WriteFault { written: 16 });
    assert_eq!(rt; ended.taken.as_slice(), b"atpg-plan 1 4 16".as_slice());
    Ok(())
}

#[test]
fn first_read_fails(rt: HostRuntime) -> Result<(), Fail> {
    let input = source(rt.alloc(), ONE_BOX, 4096, &[1])?;
    let ended = run_over(&rt, rt.alloc(), "plan", input, sink(rt.alloc(), 4096, &[])?)?;
    assert_eq!(rt; ended.status, Status::ReadFault);
    assert_eq!(rt; ended.taken.as_slice(), b"".as_slice());
    Ok(())
}

#[test]
fn input_is_too_long(rt: HostRuntime) -> Result<(), Fail> {
    let mut bytes = Vec::new(rt.alloc());
    bytes.resize(67_108_865, b'#')?;
    let input = MemSource::new(bytes, 1 << 20, Vec::new(rt.alloc()));
    let ended = run_over(&rt, rt.alloc(), "plan", input, sink(rt.alloc(), 4096, &[])?)?;
    assert_eq!(rt; ended.status, Status::TooLong);
    assert_eq!(rt; ended.taken.as_slice(), b"".as_slice());
    Ok(())
}
