ghost use Rattle.std.specs.Prelude.{map, IfOk};
ghost use Rattle.network_model.specs.Table.{AreApart};
ghost use Rattle.path_table.specs.Entries.{entry_of};

use super::entry::table_order;
use super::{Entry, Table, TableFault, Touched};
use net_types::{BoxId, RuleId, RuleList, TermId};
use std::alloc::Global;
use std::cmp::Ordering;
use std::process::Abort;
use std::test::Fail;
use ternary_bits::Header;

#[test]
fn a_table_of_one_entry_has_it_as_number_one(rt: HostRuntime) -> Result<(), Fail> {
    let alloc = rt.alloc();
    let mut rules = RuleList::new(alloc);
    rules.push(RuleId::of(5))?;
    let header = Header::of_number(4, 8);
    let mut found = Vec::new(alloc);
    found.push(Entry {
        from: TermId::of(1),
        to: TermId::of(2),
        rules,
        least: header,
        greatest: header,
        arrives: header,
    })?;
    let table = Table::of_found(alloc, found, 1)?;
    assert_eq!(rt; table.len(), 1);
    assert!(rt; table.entry(0).is_none());
    assert!(rt; table.entry(2).is_none());
    let entry = table.entry(1).expect(&rt, "there is an entry");
    assert_eq!(rt; entry.from.get(), 1);
    assert_eq!(rt; entry.to.get(), 2);
    assert_eq!(rt; entry.rules.get(0), Some(RuleId::of(5)));
    assert_eq!(rt; entry.arrives, header);
    let copy = table.copy()?;
    assert_eq!(rt; copy.len(), 1);
    let copied = copy.entry(1).expect(&rt, "there is an entry");
    assert_eq!(rt; copied.to.get(), 2);
    assert_eq!(rt; copied.rules.get(0), Some(RuleId::of(5)));
    Ok(())
}

// An entry of these rules, with headers of its own.
fn entry(alloc: Global, from: u32, rules: &[u32]) -> Result<Entry, Fail> {
    let mut list = RuleList::new(alloc);
    for rule in rules {
        list.push(RuleId::of(*rule))?;
    }
    Ok(Entry {
        from: TermId::of(from),
        to: TermId::of(9),
        rules: list,
        least: Header::of_number(4, 3),
        greatest: Header::of_number(4, 12),
        arrives: Header::of_number(4, 7),
    })
}

// Three different entries, out of order.
fn three_found(rt: &impl Abort, alloc: Global) -> Result<Vec<Entry>, Fail>
    ensures { IfOk result (λ found. AreApart (map entry_of found.items)) }
{
    let last = entry(alloc, 2, &[1])?;
    let middle = entry(alloc, 1, &[3, 4])?;
    let first = entry(alloc, 1, &[3])?;
    assert!(rt; table_order(&last, &middle) != Ordering::Equal);
    assert!(rt; table_order(&last, &first) != Ordering::Equal);
    assert!(rt; table_order(&middle, &first) != Ordering::Equal);
    let mut found = Vec::new(alloc);
    found.push(last)?;
    found.push(middle)?;
    found.push(first)?;
    Ok(found)
}

#[test]
fn by_terminal_and_then_by_rules_a_prefix_first(rt: HostRuntime) -> Result<(), Fail> {
    let alloc = rt.alloc();
    let table = Table::of_found(alloc, three_found(&rt, alloc)?, 3)?;
    assert_eq!(rt; table.len(), 3);
    let cases: [(u32, u32, &[u32]); 3] = [(1, 1, &[3]), (2, 1, &[3, 4]), (3, 2, &[1])];
    for (number, from, rules) in cases {
        let entry = table.entry(number).expect(&rt, "there is an entry");
        assert_eq!(rt; entry.from.get(), from);
        assert_eq!(rt; entry.to.get(), 9);
        assert_eq!(rt; entry.rules.len(), rules.len());
        for (i, rule) in rules.iter().enumerate() {
            assert_eq!(rt; entry.rules.get(i), Some(RuleId::of(*rule)));
        }
        assert_eq!(rt; entry.least.number(), 3);
        assert_eq!(rt; entry.greatest.number(), 12);
        assert_eq!(rt; entry.arrives.number(), 7);
    }
    assert!(rt; table.entry(4).is_none());
    Ok(())
}

#[test]
fn full_above_the_limit(rt: HostRuntime) -> Result<(), Fail> {
    let alloc = rt.alloc();
    for limit in 0..3 {
        match Table::of_found(alloc, three_found(&rt, alloc)?, limit) {
            Err(fault) => assert_eq!(rt; fault, TableFault::TableFull { limit }),
            Ok(_) => panic!(&rt; "a table of more entries than {limit}"),
        }
    }
    Ok(())
}

#[test]
fn a_pair_that_was_added_twice_is_there_and_no_other(rt: HostRuntime) -> Result<(), Fail> {
    let mut touched = Touched::new(rt.alloc());
    assert!(rt; !touched.has(TermId::of(1), BoxId::of(2)));
    touched.add(TermId::of(1), BoxId::of(2))?;
    touched.add(TermId::of(1), BoxId::of(2))?;
    assert!(rt; touched.has(TermId::of(1), BoxId::of(2)));
    assert!(rt; !touched.has(TermId::of(2), BoxId::of(1)));
    assert!(rt; !touched.has(TermId::of(1), BoxId::of(1)));
    let copy = touched.copy()?;
    assert!(rt; copy.has(TermId::of(1), BoxId::of(2)));
    assert!(rt; !copy.has(TermId::of(2), BoxId::of(1)));
    Ok(())
}
