//! Networks of the tests, read from their texts.
use net_types::{Network, RuleId, RuleList};
use std::alloc::Global;
use std::process::Abort;
use std::test::Fail;

/// Two boxes behind one another, with the ports 11 and 12 at the first and 21 and 22 at the second. Terminal 1 sends into
/// the first, and terminal 2 receives behind the second.
pub(crate) const TWO_BOXES: &[u8] =
    b"atpg-net 2 2\nbox 1\nbox 2\nport 11 1\nport 12 1\nport 21 2\nport 22 2\nlink 12 21\nterm 2 22 receive\npermit 2 xx\nterm 1 11 send\n";

/// Each of the two boxes has a rule for either half of the headers, of which 10 is never sent.
pub(crate) const HALVES: &[u8] =
    b"permit 1 0x\npermit 1 11\nrule 1 1 1 * 0x 12\nrule 2 1 1 * 1x 12\nrule 3 2 1 * x0 22\nrule 4 2 1 * x1 22\n";

/// The network of a text in parts.
pub(crate) fn network(alloc: Global, parts: &[&[u8]]) -> Result<Network, Fail> {
    let mut text = Vec::new(alloc);
    for part in parts {
        text.extend_from_slice(part)?;
    }
    Ok(net_text::read(alloc, &text)?)
}

/// The list has just these rules.
pub(crate) fn check_rules(rt: &impl Abort, rules: &RuleList, numbers: &[u32]) {
    assert_eq!(rt; rules.len(), numbers.len());
    for (i, number) in numbers.iter().enumerate() {
        assert_eq!(rt; rules.get(i), Some(RuleId::of(*number)));
    }
}
