use super::{Command, Name, Value, judge, judge_command, number_of, numbers_of};
use no_memory::NoMemory;
use std::alloc::{AllocError, Global};
use std::test::Fail;

const PORT: Name<'static> = Name {
    word: "--port",
    value: Value::Number {
        least: 1,
        most: 65_535,
        usual: None,
    },
};

const HOPS: Name<'static> = Name {
    word: "--hops",
    value: Value::Number {
        least: 1,
        most: 255,
        usual: Some(16),
    },
};

const SEED: Name<'static> = Name {
    word: "--seed",
    value: Value::Number {
        least: 0,
        most: 18_446_744_073_709_551_615,
        usual: None,
    },
};

const FAULTS: Name<'static> = Name {
    word: "--faults",
    value: Value::Numbers {
        most: 4_294_967_295,
    },
};

fn words_of(alloc: Global, line: &str) -> Result<Vec<String>, AllocError> {
    let mut words = Vec::new(alloc);
    for word in line.split_whitespace() {
        words.push(String::from_str(alloc, word)?)?;
    }
    Ok(words)
}

/// The port and the hop limit of a program without commands.
fn pairs_alone(words: &[String]) -> Result<(u64, u64), u64> {
    judge(words, &[PORT, HOPS])?;
    Ok((number_of(words, &PORT), number_of(words, &HOPS)))
}

/// The command of a program with three, and the hop limit.
fn commanded(words: &[String]) -> Result<(&'static str, u64), u64> {
    let commands: [Command<'static>; 3] = [
        Command {
            word: "plan",
            names: &[HOPS],
        },
        Command {
            word: "grow",
            names: &[SEED, HOPS],
        },
        Command {
            word: "upgrade",
            names: &[],
        },
    ];
    let (command, rest) = judge_command(words, &commands)?;
    Ok((command.word, number_of(rest, &HOPS)))
}

/// The faults of a program of two names.
fn faults(alloc: Global, words: &[String]) -> Result<Result<Vec<u64>, u64>, NoMemory> {
    match judge(words, &[FAULTS, HOPS]) {
        Ok(()) => Ok(Ok(numbers_of(alloc, words, &FAULTS)?)),
        Err(at) => Ok(Err(at)),
    }
}

#[test]
fn judges_pairs_alone(rt: HostRuntime) -> Result<(), Fail> {
    let cases: [(&str, Result<(u64, u64), u64>); 13] = [
        ("--port 4000", Ok((4000, 16))),
        ("--hops 255 --port 65535", Ok((65_535, 255))),
        ("", Err(1)),
        ("--port", Err(2)),
        ("--port 0", Err(2)),
        ("--port 65536", Err(2)),
        ("--port 01", Err(2)),
        ("--port=1", Err(1)),
        ("--hops 3", Err(3)),
        ("--hops 256 --port 1", Err(2)),
        ("--port 1 --port 2", Err(3)),
        ("--port 1 --seats 2", Err(3)),
        ("--port 1 --hops", Err(4)),
    ];
    for (line, expected) in cases {
        let words = words_of(rt.alloc(), line)?;
        assert_eq!(rt; pairs_alone(&words), expected);
    }
    Ok(())
}

#[test]
fn judges_commands(rt: HostRuntime) -> Result<(), Fail> {
    let cases: [(&str, Result<(&str, u64), u64>); 12] = [
        ("plan", Ok(("plan", 16))),
        ("plan --hops 1", Ok(("plan", 1))),
        ("grow --hops 2 --seed 0", Ok(("grow", 2))),
        ("grow --seed 18446744073709551615", Ok(("grow", 16))),
        ("upgrade", Ok(("upgrade", 16))),
        ("", Err(1)),
        ("plans", Err(1)),
        ("plan --seed 1", Err(2)),
        ("grow", Err(2)),
        ("grow --hops 2", Err(4)),
        ("grow --seed 18446744073709551616", Err(3)),
        ("upgrade upgrade", Err(2)),
    ];
    for (line, expected) in cases {
        let words = words_of(rt.alloc(), line)?;
        let judged = commanded(&words);
        assert!(rt; judged == expected, "{line}");
    }
    Ok(())
}

#[test]
fn judges_lists(rt: HostRuntime) -> Result<(), Fail> {
    let cases: [(&str, Result<&[u64], u64>); 11] = [
        ("", Ok(&[])),
        ("--hops 4", Ok(&[])),
        ("--faults 7", Ok(&[7])),
        ("--hops 4 --faults 3,1,3", Ok(&[3, 1, 3])),
        ("--faults 4294967295,0", Ok(&[4_294_967_295, 0])),
        ("--faults 4294967296", Err(2)),
        ("--faults 1,", Err(2)),
        ("--faults 1,02", Err(2)),
        ("--faults 1 2", Err(3)),
        ("--faults 1 --faults 2", Err(3)),
        ("--hops 4,5", Err(2)),
    ];
    for (line, expected) in cases {
        let words = words_of(rt.alloc(), line)?;
        match faults(rt.alloc(), &words)? {
            Ok(given) => assert!(rt; expected == Ok(given.as_slice()), "{line}"),
            Err(at) => assert!(rt; expected == Err(at), "{line}"),
        }
    }
    Ok(())
}
