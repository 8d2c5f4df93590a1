use super::{part_after, part_before, word};
use std::test::Fail;

#[test]
fn words_by_their_places(rt: HostRuntime) {
    let line = b" \tnever 1\r 2 # 3";
    assert_eq!(rt; word(line, 0), Some(b"never".as_slice()));
    assert_eq!(rt; word(line, 2), Some(b"2".as_slice()));
    assert_eq!(rt; word(line, 3), None);
}

#[test]
fn parts_at_the_first_line_of_the_word_alone(rt: HostRuntime) -> Result<(), Fail> {
    let name = b"policy".as_slice();
    let cases: [(&[u8], &[u8], Option<&[u8]>); 7] = [
        (b"", b"", None),
        (b"box 1\nbox 2", b"box 1\nbox 2", None),
        (b"policy", b"", None),
        (b"policy\n", b"", Some(b"")),
        (
            b"\n\n policy # a\tcomment\nx\npolicy\n",
            b"\n\n",
            Some(b"x\npolicy\n"),
        ),
        (
            b"box 1\r\npolicy 2\npolicy\r\nx",
            b"box 1\r\npolicy 2\n",
            Some(b"x"),
        ),
        (b"# policy\npolicy", b"# policy\n", None),
    ];
    for (text, before, after) in cases {
        assert_eq!(rt; part_before(text, name), before);
        assert_eq!(rt; part_after(text, name), after);
    }
    Ok(())
}
