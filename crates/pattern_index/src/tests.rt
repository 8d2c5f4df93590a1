ghost use Rattle.std.specs.Prelude.{◌≡◌, length};

use super::{PatternIndex, is_within};
use std::process::Abort;
use std::test::Fail;
use ternary_bits::Pattern;

fn pattern(rt: &impl Abort, text: &[u8]) -> Pattern
    ensures { length result ≡ 4 }
{
    let pattern = Pattern::read(text).expect(rt, "a pattern");
    assert_eq!(rt; pattern.bits(), 4);
    pattern
}

#[test]
fn the_meeting_are_found(rt: HostRuntime) -> Result<(), Fail> {
    let alloc = rt.alloc();
    let list = [
        pattern(&rt, b"0xxx"),
        pattern(&rt, b"10xx"),
        pattern(&rt, b"xxx1"),
        pattern(&rt, b"1101"),
        pattern(&rt, b"10xx"),
    ];
    let index = PatternIndex::of(alloc, 4, &list)?;
    let mut places = Vec::new(alloc);
    places.push(9)?;
    index.add_meeting(&pattern(&rt, b"1x00"), &mut places)?;
    places.sort()?;
    assert_eq!(rt; places.as_slice(), [1, 4, 9].as_slice());
    places.clear();
    index.add_meeting(&pattern(&rt, b"11x1"), &mut places)?;
    places.sort()?;
    assert_eq!(rt; places.as_slice(), [2, 3].as_slice());
    Ok(())
}

#[test]
fn an_empty_list_has_none(rt: HostRuntime) -> Result<(), Fail> {
    let alloc = rt.alloc();
    let index = PatternIndex::of(alloc, 4, &[])?;
    let mut places: Vec<usize> = Vec::new(alloc);
    index.add_meeting(&pattern(&rt, b"xxxx"), &mut places)?;
    assert!(rt; places.is_empty());
    Ok(())
}

#[test]
fn patterns_within_hulls(rt: HostRuntime) -> Result<(), Fail> {
    assert!(rt; is_within(&pattern(&rt, b"10x1"), &pattern(&rt, b"1xx1")));
    assert!(rt; is_within(&pattern(&rt, b"10x1"), &pattern(&rt, b"10x1")));
    assert!(rt; !is_within(&pattern(&rt, b"1xx1"), &pattern(&rt, b"10x1")));
    assert!(rt; !is_within(&pattern(&rt, b"10x1"), &pattern(&rt, b"0xxx")));
    Ok(())
}
