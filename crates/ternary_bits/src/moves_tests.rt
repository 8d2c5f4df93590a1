use super::tests::rewrite;
use super::{Item, MoveFault, Rewrite};
use std::test::Fail;

#[test]
fn prints_each_rewrite_in_its_word(rt: HostRuntime) -> Result<(), Fail> {
    let cases: [(&[u8], &[u8]); 5] = [
        (b"@-", b"-"),
        (b"@-,1,b3,-", b"-1--"),
        (b"@b2,1,b3,0", b"@b2,1,-,0"),
        (b"@0,0,0,0,0,0,0,0,0,b11,b10", b"@0,0,0,0,0,0,0,0,0,b11,b10"),
        (b"@b2,b1", b"@b2,b1"),
    ];
    for (text, printed) in cases {
        let word = rewrite(&rt, text).print(rt.alloc())?;
        assert_eq!(rt; word.as_slice(), printed);
    }
    Ok(())
}

#[test]
fn refuses_wrong_moving_words(rt: HostRuntime) {
    let wrong: [&[u8]; 14] = [
        b"",
        b"@",
        b"@,",
        b"@b0",
        b"@b01",
        b"@b1,",
        b"@2",
        b"@1-",
        b"@b2",
        b"@b3,b1",
        b"@b",
        b"@-,b4294967297",
        b"b1",
        b"@,1",
    ];
    for text in wrong {
        assert_eq!(rt; Rewrite::read_moves(text), Err(MoveFault::BadMoves));
    }
}

#[test]
fn takes_128_items_and_no_more(rt: HostRuntime) -> Result<(), Fail> {
    let mut text = b"@b128".to_vec(rt.alloc())?;
    for _ in 1..128 {
        text.extend_from_slice(b",1")?;
    }
    let widest = rewrite(&rt, &text);
    assert_eq!(rt; widest.bits(), 128);
    let word = widest.print(rt.alloc())?;
    assert_eq!(rt; word.as_slice(), text.as_slice());
    text.extend_from_slice(b",1")?;
    assert_eq!(rt; Rewrite::read_moves(&text), Err(MoveFault::BadMoves));
    Ok(())
}

#[test]
fn shows_the_item_of_a_place(rt: HostRuntime) {
    let some = rewrite(&rt, b"@b2,-,0,1");
    let items = [
        (0, None),
        (1, Some(Item::Old(2))),
        (2, Some(Item::Old(2))),
        (3, Some(Item::Zero)),
        (4, Some(Item::One)),
        (5, None),
    ];
    for (place, item) in items {
        assert_eq!(rt; some.item(place), item);
    }
    assert!(rt; some.same(&rewrite(&rt, b"@b2,-,0,1")));
    assert!(rt; !some.same(&rewrite(&rt, b"@b3,-,0,1")));
}
