use super::{number, numbers, split_words};
use std::test::Fail;

#[test]
fn splits_at_blanks_before_a_comment(rt: HostRuntime) -> Result<(), Fail> {
    let cases: [(&[u8], &[u8]); 5] = [
        (b"", b""),
        (b" \t\r", b""),
        (b"box 1", b"box|1|"),
        (b"\tlink  11\r 21 # 31", b"link|11|21|"),
        (b"1 2 3 4 5", b"1|2|3|4|"),
    ];
    let mut words = Vec::new(rt.alloc());
    for (line, expected) in cases {
        split_words(line, &mut words, 4)?;
        let mut joined = Vec::new(rt.alloc());
        for word in &words {
            joined.extend_from_slice(word)?;
            joined.push(b'|')?;
        }
        assert_eq!(rt; joined.as_slice(), expected);
    }
    Ok(())
}

#[test]
fn reads_plain_numbers_up_to_the_most(rt: HostRuntime) {
    let cases: [(&[u8], u64, Option<u64>); 10] = [
        (b"0", 0, Some(0)),
        (b"10", 10, Some(10)),
        (b"11", 10, None),
        (b"", 10, None),
        (b"01", 10, None),
        (b"+1", 10, None),
        (b"1a", 99, None),
        (
            b"18446744073709551615",
            18_446_744_073_709_551_615,
            Some(18_446_744_073_709_551_615),
        ),
        (b"18446744073709551616", 18_446_744_073_709_551_615, None),
        (b"99999999999999999999", 18_446_744_073_709_551_615, None),
    ];
    for (word, most, expected) in cases {
        assert_eq!(rt; number(word, most), expected);
    }
}

#[test]
fn reads_lists_of_numbers(rt: HostRuntime) -> Result<(), Fail> {
    let good: [(&[u8], &[u64]); 3] = [(b"7", &[7]), (b"9,1,3", &[9, 1, 3]), (b"5,5", &[5, 5])];
    for (word, expected) in good {
        let found = numbers(rt.alloc(), word, 9)?;
        assert_eq!(rt; found.as_deref(), Some(expected));
    }
    let bad: [&[u8]; 6] = [b"", b",", b"1,", b",1", b"1,,3", b"1,10"];
    for word in bad {
        assert!(rt; numbers(rt.alloc(), word, 9)?.is_none());
    }
    Ok(())
}
