//! A network may be shared by threads, and it and its parts may be sent to one. This proves it here, before a crate above
//! starts a thread.

use crate::{
    BoxId, End, NetBuilder, NetFault, Network, Next, Path, PortId, Role, Rule, RuleId, RuleList,
    TermId,
};

fn is_shared<T: Send + Sync>() {}

#[allow(dead_code)]
fn cross_threads() {
    is_shared::<Network>();
    is_shared::<NetBuilder>();
    is_shared::<(Rule, RuleList, Path)>();
    is_shared::<(BoxId, PortId, RuleId, TermId)>();
    is_shared::<(Role, Next, End, NetFault)>();
}
