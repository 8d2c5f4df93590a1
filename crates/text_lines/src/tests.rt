use super::{put, put_line, put_next_number, put_number, put_number_after};
use std::test::Fail;

#[test]
fn puts_words_numbers_and_lines(rt: HostRuntime) -> Result<(), Fail> {
    let mut text = Vec::new(rt.alloc());
    put(&mut text, b"link")?;
    put_next_number(&mut text, 12)?;
    put_next_number(&mut text, 4_294_967_295)?;
    put_number_after(&mut text, b',', 0)?;
    put(&mut text, b"\n")?;
    put_line(&mut text, b"end", &[3, 2, 10, 0])?;
    put_line(&mut text, b"none", &[])?;
    assert_eq!(rt;
        text.as_slice(),
        b"link 12 4294967295,0\nend 3 2 10 0\nnone\n".as_slice()
    );
    Ok(())
}

#[test]
fn numbers_of_one_digit_and_of_the_most(rt: HostRuntime) -> Result<(), Fail> {
    let cases: [(usize, &[u8], &[u8]); 5] = [
        (0, b"0", b" 0"),
        (9, b"9", b" 9"),
        (10, b"10", b" 10"),
        (1_000, b"1000", b" 1000"),
        (
            18_446_744_073_709_551_615,
            b"18446744073709551615",
            b" 18446744073709551615",
        ),
    ];
    for (number, alone, after_a_space) in cases {
        let mut text = Vec::new(rt.alloc());
        put_number(&mut text, number)?;
        assert_eq!(rt; text.as_slice(), alone);
        text.clear();
        put_next_number(&mut text, number)?;
        assert_eq!(rt; text.as_slice(), after_a_space);
    }
    Ok(())
}
