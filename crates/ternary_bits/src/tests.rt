ghost use Rattle.std.specs.Prelude.{◌≡◌, ◌≤◌, length};

use super::{Header, LetterFault, Pattern, Rewrite};
use std::alloc::{AllocError, Global};
use std::process::Abort;
use std::test::Fail;

fn header(rt: &impl Abort, text: &[u8]) -> Header {
    Header::read(text).expect(rt, "a header")
}

fn pattern(rt: &impl Abort, text: &[u8]) -> Pattern {
    Pattern::read(text).expect(rt, "a pattern")
}

// Of letters, or moving.
pub(super) fn rewrite(rt: &impl Abort, text: &[u8]) -> Rewrite {
    match text {
        [b'@', ..] => Rewrite::read_moves(text).expect(rt, "a moving word"),
        _ => Rewrite::read(text).expect(rt, "a rewrite"),
    }
}

// Two patterns, which are to have one width.
fn patterns(rt: &impl Abort, left: &[u8], right: &[u8]) -> (Pattern, Pattern)
    ensures { length result.0 ≡ length result.1 }
{
    let left = pattern(rt, left);
    let right = pattern(rt, right);
    assert_eq!(rt; left.bits(), right.bits());
    (left, right)
}

#[test]
fn differences(rt: HostRuntime) -> Result<(), Fail> {
    let alloc = rt.alloc();
    let (all, some) = patterns(&rt, b"xxxx", b"1xx0");
    let pieces = all.minus(alloc, &some)?;
    assert_eq!(rt; pieces.len(), 2);
    assert_eq!(rt; pieces[0], pattern(&rt, b"0xxx"));
    assert_eq!(rt; pieces[1], pattern(&rt, b"1xx1"));

    let (one, other) = patterns(&rt, b"1xxx", b"0xx0");
    let apart = one.minus(alloc, &other)?;
    assert_eq!(rt; apart.len(), 1);
    assert_eq!(rt; apart[0], one);

    let (part, whole) = patterns(&rt, b"1010", b"1xx0");
    assert_eq!(rt; part.minus(alloc, &whole)?.len(), 0);
    Ok(())
}

#[test]
fn meetings(rt: HostRuntime) {
    for (left, right, both) in [(b"1x0x", b"xx01", Some(b"1x01")), (b"1x0x", b"xx11", None)] {
        let (left, right) = patterns(&rt, left, right);
        assert_eq!(rt; left.meet(&right), both.map(|text| pattern(&rt, text)));
    }
}

#[test]
fn members(rt: HostRuntime) {
    let some = pattern(&rt, b"1x0x");
    for (text, matches) in [(b"1101", true), (b"1111", false), (b"0101", false)] {
        let header = header(&rt, text);
        assert_eq!(rt; some.bits(), header.bits());
        assert_eq!(rt; some.matches(&header), matches);
    }
    assert_eq!(rt; some.least(), header(&rt, b"1000"));
    assert_eq!(rt; some.greatest(), header(&rt, b"1101"));
}

#[test]
fn sources(rt: HostRuntime) {
    let cases: [(&[u8], &[u8], Option<&[u8]>); 8] = [
        (b"-1--", b"x1x1", Some(b"xxx1")),
        (b"-0--", b"x1x1", None),
        (b"1---", b"x01x", Some(b"x01x")),
        (b"@b1,b1", b"10", None),
        (b"@b1,b1", b"1x", Some(b"1x")),
        (b"@b1,b1", b"x1", Some(b"1x")),
        (b"@0,b1,b1,-", b"x0x1", Some(b"0xx1")),
        (b"@1,b1,-", b"0xx", None),
    ];
    for (text, into, sources) in cases {
        let rewrite = rewrite(&rt, text);
        let into = pattern(&rt, into);
        assert_eq!(rt; rewrite.bits(), into.bits());
        assert_eq!(rt;
            rewrite.before(&into),
            sources.map(|text| pattern(&rt, text))
        );
    }
}

#[test]
fn compositions(rt: HostRuntime) {
    let cases: [(&[u8], &[u8], &[u8]); 7] = [
        (b"-1--", b"-0-1", b"-0-1"),
        (b"10--", b"-1-0", b"11-0"),
        (b"----", b"1-0-", b"1-0-"),
        (b"@b2,b1", b"@b2,b1", b"--"),
        (b"@b2,b3,b1", b"@b2,b2,0", b"@b3,b3,0"),
        (b"@b2,-,1", b"@b3,b1,-", b"@1,-,1"),
        (b"@b2,b1,-", b"0--", b"@0,b1,-"),
    ];
    for (first, later, both) in cases {
        let first = rewrite(&rt, first);
        let later = rewrite(&rt, later);
        assert_eq!(rt; first.bits(), later.bits());
        assert_eq!(rt; first.then(&later), rewrite(&rt, both));
    }
    let cases: [(&[u8], &[u8], &[u8]); 3] = [
        (b"-1-0", b"1011", b"1110"),
        (b"@b4,b1,1,b2", b"0100", b"0011"),
        (b"@b2,b1,-,0", b"0111", b"1010"),
    ];
    for (text, before, after) in cases {
        let rewrite = rewrite(&rt, text);
        let before = header(&rt, before);
        assert_eq!(rt; rewrite.bits(), before.bits());
        assert_eq!(rt; rewrite.apply(&before), header(&rt, after));
    }
    assert_eq!(rt; Rewrite::keep(4), rewrite(&rt, b"----"));
}

#[test]
fn letters(rt: HostRuntime) -> Result<(), Fail> {
    let alloc = rt.alloc();
    assert_eq!(rt;
        header(&rt, b"0110").print(alloc)?.as_slice(),
        b"0110".as_slice()
    );
    assert_eq!(rt;
        pattern(&rt, b"x10x").print(alloc)?.as_slice(),
        b"x10x".as_slice()
    );
    assert_eq!(rt;
        rewrite(&rt, b"-1--").print(alloc)?.as_slice(),
        b"-1--".as_slice()
    );
    assert_eq!(rt; header(&rt, b"0110").number(), 6);
    let some = pattern(&rt, b"x10x");
    assert_eq!(rt; (some.care(), some.value()), (6, 4));
    assert_eq!(rt; Pattern::of_words(4, 6, 4), some);
    let mut text = b"in ".to_vec(alloc)?;
    header(&rt, b"01").put(&mut text)?;
    some.put(&mut text)?;
    rewrite(&rt, b"@b2,1").put(&mut text)?;
    rewrite(&rt, b"-1").put(&mut text)?;
    assert_eq!(rt; text.as_slice(), b"in 01x10x@b2,1-1".as_slice());
    assert!(rt; pattern(&rt, b"x1").same(&pattern(&rt, b"x1")));
    assert!(rt; !pattern(&rt, b"x1").same(&pattern(&rt, b"01")));
    assert!(rt; rewrite(&rt, b"-0").same(&rewrite(&rt, b"-0")));
    assert!(rt; !rewrite(&rt, b"-0").same(&rewrite(&rt, b"--")));
    Ok(())
}

// A letter so many times.
fn repeated(alloc: Global, letter: u8, count: usize) -> Result<Vec<u8>, AllocError> {
    let mut text = Vec::new(alloc);
    for _ in 0..count {
        text.push(letter)?;
    }
    Ok(text)
}

#[test]
fn faults(rt: HostRuntime) -> Result<(), Fail> {
    assert_eq!(rt; Header::read(b"10z"), Err(LetterFault::BadLetter { at: 2 }));
    assert_eq!(rt; Header::read(b"1xx"), Err(LetterFault::BadLetter { at: 1 }));
    assert_eq!(rt;
        Pattern::read(b"1-z"),
        Err(LetterFault::BadLetter { at: 1 })
    );
    assert_eq!(rt; Rewrite::read(b"x"), Err(LetterFault::BadLetter { at: 0 }));
    assert_eq!(rt; Rewrite::read(b""), Err(LetterFault::BadLength { got: 0 }));
    let long = repeated(rt.alloc(), b'z', 129)?;
    assert_eq!(rt;
        Pattern::read(&long),
        Err(LetterFault::BadLength { got: 129 })
    );
    Ok(())
}

fn all(bits: u32) -> Pattern
    requires { (1 ≤ bits) × (bits ≤ 128) }
    ensures { length result ≡ bits }
{
    Pattern::all(bits)
}

#[test]
fn widest(rt: HostRuntime) -> Result<(), Fail> {
    let alloc = rt.alloc();
    let text = repeated(alloc, b'1', 128)?;
    let ones = pattern(&rt, &text);
    let all = all(128);
    assert_eq!(rt; all.bits(), ones.bits());
    assert_eq!(rt; all.greatest(), Header::of_number(128, u128::MAX));
    assert_eq!(rt; ones.least().number(), u128::MAX);
    assert_eq!(rt; ones.print(alloc)?.as_slice(), text.as_slice());
    let pieces = all.minus(alloc, &ones)?;
    assert_eq!(rt; pieces.len(), 128);
    assert_eq!(rt; pieces[0].greatest().number(), u128::MAX >> 1);
    assert_eq!(rt; pieces[127].least().number(), u128::MAX - 1);
    Ok(())
}
