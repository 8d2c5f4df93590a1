//! Words as an environment gives them.

ghost use Rattle.std.specs.Io.{WritesAtMost};

use super::EnvWords;
use crate::Words;
use std::env::{Env, FillError};
use std::test::Fail;

/// What the environment of a program that was given these words tells. The first is the program's name.
#[derive(Drop)]
struct Given {
    words: &'static [&'static [u8]],
}

impl Env for Given {
    fn arg(&self, i: usize, buf: &mut [u8]) -> Result<usize, FillError> {
        match self.words.get(i) {
            Some(word) => fill(word, buf),
            None => Err(FillError::NotPresent),
        }
    }

    fn var(&self, _name: &str, _buf: &mut [u8]) -> Result<usize, FillError> {
        Err(FillError::NotPresent)
    }

    fn var_at(&self, _i: usize, _buf: &mut [u8]) -> Result<usize, FillError> {
        Err(FillError::NotPresent)
    }
}

fn fill(word: &[u8], buf: &mut [u8]) -> Result<usize, FillError>
    ensures { WritesAtMost result buf.new }
{
    if word.len() > buf.len() {
        return Err(FillError::TooLong);
    }
    buf[..word.len()].copy_from_slice(word);
    Ok(word.len())
}

#[test]
fn gives_each_word_whole(rt: HostRuntime) -> Result<(), Fail> {
    let words: &'static [&'static [u8]] = &[
        b"atpg",
        b"plan",
        b"",
        b"--hops\xff",
        &[b'a'; 256],
        &[b'a'; 257],
        &[b'1'; 3000],
    ];
    let env = Given { words };
    let given = EnvWords::new(&env);
    for (i, word) in words[1..].iter().enumerate() {
        let read = given.word(rt.alloc(), i)?.expect(&rt, "the word is given");
        assert_eq!(rt; read.as_slice(), *word);
    }
    assert!(rt; given.word(rt.alloc(), words.len() - 1)?.is_none());
    Ok(())
}
