use super::print;
use net_types::{Action, BoxId, InPort, NetBuilder, Rule, RuleId};
use path_table::{Table, Touched};
use rule_cover::cover;
use std::sync::Arc;
use std::test::Fail;
use ternary_bits::Pattern;

#[test]
fn without_entries(rt: HostRuntime) -> Result<(), Fail> {
    let alloc = rt.alloc();
    let mut builder = NetBuilder::new(alloc, 1)?;
    builder.add_box(BoxId::of(1))?;
    builder.add_rule(Rule {
        id: RuleId::of(70),
        at: BoxId::of(1),
        priority: 1,
        inp: InPort::Any,
        pattern: Pattern::read(b"x")?,
        action: Action::Drop,
    })?;
    let net = Arc::new(alloc, builder.finish()?)?;
    let table = Table::of_found(alloc, Vec::new(alloc), 0)?;
    let plan = cover(alloc, net, 15, table, Touched::new(alloc))?;
    assert_eq!(rt;
        print(alloc, &plan)?.as_slice(),
        b"atpg-plan 1 1 15\nidle 70\nend 0 0 0 1\n".as_slice()
    );
    Ok(())
}
