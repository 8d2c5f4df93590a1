//! The whole text.
ghost use Rattle.std.specs.Prelude.{◌≡◌, ◌++◌, IfOk, OnOk};
ghost use Rattle.plan_text.specs.PlanText.{plan_text, head_line, end_line};

use crate::entries::put_entries;
use crate::numbers::{put_idle_lines, put_probe_lines, put_reserved_lines};
use no_memory::NoMemory;
use rule_cover::Plan;
use std::alloc::Global;
use text_lines::put_line;

fn put_head(text: &mut Vec<u8>, plan: &Plan) -> Result<(), NoMemory>
    ensures { OnOk result (text.new.items ≡ text.old.items ++ head_line plan.now.net plan.now.hops) }
{
    let bits = plan.net().bits() as usize;
    put_line(text, b"atpg-plan 1", &[bits, plan.hops() as usize])
}

fn put_end(text: &mut Vec<u8>, plan: &Plan) -> Result<(), NoMemory>
    ensures { OnOk result (text.new.items ≡ text.old.items ++ end_line plan.now.net plan.now.plan) }
{
    let counts = [
        plan.table().len() as usize,
        plan.probe_count(),
        plan.reserved_count(),
        plan.idle_count(),
    ];
    put_line(text, b"end", &counts)
}

/// The text of a plan, version 1. Each line ends with a line feed.
pub fn print(alloc: Global, plan: &Plan) -> Result<Vec<u8>, NoMemory>
    ensures { IfOk result (λ text. text.items ≡ plan_text plan.now.net plan.now.hops plan.now.plan) }
{
    let mut text = Vec::new(alloc);
    put_head(&mut text, plan)?;
    put_entries(&mut text, plan.table())?;
    put_probe_lines(&mut text, plan)?;
    put_reserved_lines(&mut text, plan)?;
    put_idle_lines(&mut text, plan)?;
    put_end(&mut text, plan)?;
    Ok(text)
}
