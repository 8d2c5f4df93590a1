use super::{print, read};
use std::test::Fail;

/// One box as an older text, and as it is printed.
const ONE_BOX: &str =
    "atpg-net 1 4\nbox 1\nport 11 1\nport 12 1\nterm 1 11 send\nterm 2 12 receive\npermit 1 xxxx\nrule 5 1 10 * 1xx0 12\n";

const ONE_BOX_PRINTED: &str =
    "atpg-net 2 4\nbox 1\nport 11 1\nport 12 1\nterm 1 11 send\nterm 2 12 receive\npermit 1 xxxx\nrule 5 1 10 * 1xx0 12\n";

/// Each part in its printed form and place.
const EVERYTHING: &str =
    "atpg-net 2 3\nbox 0\nbox 7\nbox 4294967295\nport 1 0\nport 2 0\nport 3 7\nport 4 7\nport 5 4294967295\nport 6 0\nport 4294967295 7\nlink 1 5\nlink 2 3\nterm 0 4 both\nterm 8 6 send\nterm 9 4294967295 receive\npermit 0 0x1\npermit 0 xxx\npermit 0 0x1\npermit 8 111\npermit 9 x0x\nforbid 0 x11\nforbid 0 000\nforbid 9 xxx\nrule 0 0 0 * xxx drop\nrule 3 0 4294967295 2 01x 1 -1-\nrule 4 7 5 * 1x0 3\nrule 9 7 5 * xxx 3 @b3,-,1\nrule 4294967295 4294967295 2 5 000 5 010\n";

/// The same network, declared in another order and with what printing leaves out.
const ANOTHER_ORDER: &str =
    "atpg-net 2 3\nbox 7\nbox 4294967295\nbox 0\nport 6 0\nport 5 4294967295\nport 4294967295 7\nport 4 7\nport 3 7\nport 2 0\nport 1 0\nrule 4294967295 4294967295 2 5 000 5 010\nrule 9 7 5 * xxx 3 @b3,b2,1\nrule 4 7 5 * 1x0 3 @b1,-,-\nrule 3 0 4294967295 2 01x 1 -1-\nrule 0 0 0 * xxx drop\nterm 9 4294967295 receive\nforbid 9 xxx\npermit 9 x0x\nterm 8 6 send\npermit 8 111\nlink 3 2\nlink 5 1\nterm 0 4 both\npermit 0 0x1\nforbid 0 x11\npermit 0 xxx\nforbid 0 000\npermit 0 0x1 # once more\n";

#[test]
fn prints_each_part_in_its_place(rt: HostRuntime) -> Result<(), Fail> {
    let cases = [
        ("atpg-net 1 128\n", "atpg-net 2 128\n"),
        ("atpg-net 2 1", "atpg-net 2 1\n"),
        (ONE_BOX, ONE_BOX_PRINTED),
        (ONE_BOX_PRINTED, ONE_BOX_PRINTED),
        (EVERYTHING, EVERYTHING),
        (ANOTHER_ORDER, EVERYTHING),
    ];
    for (text, printed) in cases {
        let net = read(rt.alloc(), text.as_bytes())?;
        let again = print(rt.alloc(), &net)?;
        assert_eq!(rt; again.as_slice(), printed.as_bytes());
        assert!(rt; read(rt.alloc(), &again)?.same(&net));
    }
    Ok(())
}
