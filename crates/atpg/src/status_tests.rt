//! What tells how a run ended: the number of each status, and its text.

use super::status::Status;
use net_text::TextFault;
use net_types::{NetFault, RuleId};
use policy_text::PolicyFault;
use std::test::Fail;

#[test]
fn numbers_and_texts(rt: HostRuntime) -> Result<(), Fail> {
    let bad_net = Status::BadNet {
        line: 18_446_744_073_709_551_615,
        fault: TextFault::Words,
    };
    let bad_policy = Status::BadPolicy {
        line: 7,
        fault: PolicyFault::Letters,
    };
    for (status, number, text) in [
        (Status::Done, 0, ""),
        (Status::BadWords { at: 3 }, 2, "bad words at 3\n"),
        (Status::ReadFault, 3, "read fault\n"),
        (
            Status::WriteFault { written: 16 },
            4,
            "write fault after 16 bytes\n",
        ),
        (Status::TooLong, 5, "input too long\n"),
        (
            bad_net,
            6,
            "bad network at line 18446744073709551615: words\n",
        ),
        (Status::NoSuchRule { id: RuleId::of(9) }, 7, "no rule 9\n"),
        (Status::TableFull { limit: 2 }, 8, "more than 2 entries\n"),
        (Status::LongLine { line: 2 }, 9, "session line 2 too long\n"),
        (bad_policy, 13, "bad policy at line 7: letters\n"),
        (Status::NoMemory, 10, "no memory\n"),
    ] {
        assert_eq!(rt; status.number(), number);
        assert_eq!(rt; status.text().as_slice(), text.as_bytes());
    }
    Ok(())
}

#[test]
fn words_for_faults(rt: HostRuntime) -> Result<(), Fail> {
    for (fault, text) in [
        (TextFault::NoHead, "bad network at line 1: no-head\n"),
        (TextFault::Version, "bad network at line 1: version\n"),
        (TextFault::Words, "bad network at line 1: words\n"),
        (TextFault::Number, "bad network at line 1: number\n"),
        (TextFault::Letters, "bad network at line 1: letters\n"),
        (
            TextFault::Net(NetFault::Twice),
            "bad network at line 1: twice\n",
        ),
        (
            TextFault::Net(NetFault::Unknown),
            "bad network at line 1: unknown\n",
        ),
        (
            TextFault::Net(NetFault::Limit),
            "bad network at line 1: limit\n",
        ),
        (
            TextFault::Net(NetFault::Width),
            "bad network at line 1: width\n",
        ),
        (
            TextFault::Net(NetFault::PortTaken),
            "bad network at line 1: port-taken\n",
        ),
        (
            TextFault::Net(NetFault::LinkTaken),
            "bad network at line 1: link-taken\n",
        ),
        (
            TextFault::Net(NetFault::EdgeLinked),
            "bad network at line 1: edge-linked\n",
        ),
    ] {
        let status = Status::BadNet { line: 1, fault };
        assert_eq!(rt; status.text().as_slice(), text.as_bytes());
    }
    Ok(())
}

#[test]
fn words_for_faults_of_policies(rt: HostRuntime) -> Result<(), Fail> {
    for (fault, text) in [
        (PolicyFault::Words, "bad policy at line 1: words\n"),
        (PolicyFault::Number, "bad policy at line 1: number\n"),
        (PolicyFault::Letters, "bad policy at line 1: letters\n"),
        (PolicyFault::Unknown, "bad policy at line 1: unknown\n"),
        (PolicyFault::Width, "bad policy at line 1: width\n"),
    ] {
        let status = Status::BadPolicy { line: 1, fault };
        assert_eq!(rt; status.text().as_slice(), text.as_bytes());
    }
    Ok(())
}
