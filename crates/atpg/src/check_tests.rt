//! Policies after a network.
use super::status::Status;
use super::tests::{run_over, sink, source};
use net_text::TextFault;
use policy_text::PolicyFault;
use std::test::Fail;

/// Two boxes behind one another, whose terminal 1 sends 00, 01 and 11, with four policies of which one is broken.
const TWO_BOXES: &str =
    "atpg-net 1 2\nbox 1\nport 11 1\nport 12 1\nbox 2\nport 21 2\nport 22 2\nlink 12 21\nterm 1 11 send\nterm 2 22 receive\npermit 1 0x\npermit 1 11\nrule 1 1 1 * 0x 12\nrule 2 1 1 * 1x 12\nrule 3 2 1 * x0 22\nrule 4 2 1 * x1 22\npolicy\nnever 1 2 11\nmust 1 2 xx\nvia 1 2 1 xx\nnever 1 2 10\n";

/// A box whose rules take 11xx, 1000 and 1010, with a policy that the packets break that no rule takes.
const ONE_BOX: &str =
    "atpg-net 1 4\nbox 1\nport 11 1\nport 12 1\nterm 1 11 send\nterm 2 12 receive\npermit 1 xxxx\nrule 5 1 10 * 1xx0 12\nrule 3 1 10 * 11xx 12\npolicy # of the lab\n\nmust 1 2 xxxx";

/// The same and a policy over a box that is not there.
const NO_BOX: &str =
    "atpg-net 1 4\nbox 1\nport 11 1\nport 12 1\nterm 1 11 send\nterm 2 12 receive\npermit 1 xxxx\nrule 5 1 10 * 1xx0 12\nrule 3 1 10 * 11xx 12\npolicy\nmust 1 2 xxxx\nvia 1 2 9 xxxx\nnever x\n";

/// 0x comes back to the first box as 1x, and so meets four rules.
const ROUND: &str =
    "atpg-net 1 2\nbox 1\nport 11 1\nport 12 1\nport 13 1\nbox 2\nport 21 2\nport 22 2\nport 23 2\nlink 12 21\nlink 22 13\nterm 1 11 send\nterm 2 23 receive\npermit 1 xx\nrule 1 1 1 * xx 12\nrule 2 2 1 * 0x 22 1-\nrule 3 2 1 * 1x 23\npolicy\nmust 1 2 xx\n";

const UNKNOWN: Status = Status::BadPolicy {
    line: 2,
    fault: PolicyFault::Unknown,
};

const NO_HEAD: Status = Status::BadNet {
    line: 3,
    fault: TextFault::NoHead,
};

#[test]
fn answers_policies(rt: HostRuntime) -> Result<(), Fail> {
    for (words, input, status, output) in [
        (
            "check",
            TWO_BOXES,
            Status::Done,
            "broken 1 11\nok 2\nok 3\nok 4\nchecked 4 1\n",
        ),
        (
            "check",
            ONE_BOX,
            Status::Done,
            "broken 1 0000\nchecked 1 1\n",
        ),
        ("check", NO_BOX, UNKNOWN, ""),
        ("check --hops 4", ROUND, Status::Done, "ok 1\nchecked 1 0\n"),
        (
            "check --hops 3",
            ROUND,
            Status::Done,
            "broken 1 00\nchecked 1 1\n",
        ),
        ("check", "atpg-net 1 4\n", Status::Done, "checked 0 0\n"),
        (
            "check",
            "atpg-net 1 4\npolicy",
            Status::Done,
            "checked 0 0\n",
        ),
        ("check", "\n\npolicy\nnever\n", NO_HEAD, ""),
        ("check --entries 4", ROUND, Status::BadWords { at: 2 }, ""),
    ] {
        let ended = run_over(
            &rt,
            rt.alloc(),
            words,
            source(rt.alloc(), input, 4096, &[])?,
            sink(rt.alloc(), 4096, &[])?,
        )?;
        assert_eq!(rt; ended.status, status);
        assert!(rt; ended.wrote(output));
    }
    Ok(())
}
