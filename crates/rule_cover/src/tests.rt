use super::cover;
use net_types::{Action, BoxId, InPort, NetBuilder, Rule, RuleId, TermId};
use path_table::{Table, Touched};
use std::sync::Arc;
use std::test::Fail;
use ternary_bits::Pattern;

#[test]
fn without_entries_each_rule_is_idle(rt: HostRuntime) -> Result<(), Fail> {
    let alloc = rt.alloc();
    let mut builder = NetBuilder::new(alloc, 1)?;
    builder.add_box(BoxId::of(1))?;
    builder.add_rule(Rule {
        id: RuleId::of(7),
        at: BoxId::of(1),
        priority: 1,
        inp: InPort::Any,
        pattern: Pattern::read(b"x")?,
        action: Action::Drop,
    })?;
    let net = Arc::new(alloc, builder.finish()?)?;
    let table = Table::of_found(alloc, Vec::new(alloc), 0)?;
    let plan = cover(alloc, net, 16, table, Touched::new(alloc))?;
    assert_eq!(rt; plan.net().rule_count(), 1);
    assert_eq!(rt; plan.hops(), 16);
    assert_eq!(rt; plan.table().len(), 0);
    assert_eq!(rt; plan.probe_count(), 0);
    assert_eq!(rt; plan.probe(0), None);
    assert_eq!(rt; plan.reserved_count(), 0);
    assert_eq!(rt; plan.reserved(0), None);
    assert_eq!(rt; plan.idle_count(), 1);
    assert_eq!(rt; plan.idle(0), Some(RuleId::of(7)));
    assert_eq!(rt; plan.idle(1), None);
    assert!(rt; !plan.touches(TermId::of(1), BoxId::of(1)));
    let copy = plan.copy()?;
    assert_eq!(rt; copy.net().rule_count(), 1);
    assert_eq!(rt; copy.hops(), 16);
    assert_eq!(rt; copy.idle(0), Some(RuleId::of(7)));
    Ok(())
}
