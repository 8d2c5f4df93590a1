ghost use Rattle.std.specs.Prelude.{◌≡◌, length};

use super::Space;
use std::process::Abort;
use std::test::Fail;
use ternary_bits::{Header, Pattern};

fn pattern(rt: &impl Abort, text: &[u8]) -> Pattern
    ensures { length result ≡ 2 }
{
    let pattern = Pattern::read(text).expect(rt, "a pattern");
    assert_eq!(rt; pattern.bits(), 2);
    pattern
}

fn header(rt: &impl Abort, text: &[u8]) -> Header
    ensures { length result ≡ 2 }
{
    let header = Header::read(text).expect(rt, "a header");
    assert_eq!(rt; header.bits(), 2);
    header
}

// Whether it has 00, 01, 10 and 11.
fn members(rt: &impl Abort, space: &Space) -> [bool; 4]
    requires { space.now.width ≡ 2 }
{
    [
        space.has(&header(rt, b"00")),
        space.has(&header(rt, b"01")),
        space.has(&header(rt, b"10")),
        space.has(&header(rt, b"11")),
    ]
}

#[test]
fn spaces(rt: HostRuntime) -> Result<(), Fail> {
    let alloc = rt.alloc();
    let left = pattern(&rt, b"0x");
    let right = pattern(&rt, b"x0");
    let space = Space::of_patterns(alloc, 2, &[left, right])?;
    assert_eq!(rt; space.bits(), 2);
    assert!(rt; !space.is_empty());
    assert_eq!(rt; members(&rt, &space), [true, true, true, false]);
    assert_eq!(rt; space.least(), Some(header(&rt, b"00")));
    assert_eq!(rt; space.greatest(), Some(header(&rt, b"10")));
    assert_eq!(rt; space.copy()?.least(), Some(header(&rt, b"00")));
    let met = space.meet(&pattern(&rt, b"x1"))?;
    assert_eq!(rt; members(&rt, &met), [false, true, false, false]);
    let rest = space.minus(&left)?;
    assert_eq!(rt; members(&rt, &rest), [false, false, true, false]);
    Ok(())
}

#[test]
fn no_patterns(rt: HostRuntime) -> Result<(), Fail> {
    let space = Space::of_patterns(rt.alloc(), 2, &[])?;
    assert!(rt; space.is_empty());
    assert_eq!(rt; space.least(), None);
    assert_eq!(rt; space.greatest(), None);
    Ok(())
}
