//! Lines of one word and one number.
ghost use Rattle.std.specs.Prelude.{◌≡◌, ◌++◌, codes, OnOk, IfOk, length};
ghost use Rattle.std.specs.List.{flat_map};
ghost use Rattle.network_model.specs.Plan.{reserved, idle};
ghost use Rattle.plan_text.specs.PlanText.{numbered_line};

use no_memory::NoMemory;
use rule_cover::Plan;
use text_lines::put_line;

pub(crate) fn put_probe_lines(text: &mut Vec<u8>, plan: &Plan) -> Result<(), NoMemory>
    ensures { OnOk result (text.new.items ≡ text.old.items ++ flat_map (numbered_line (codes "probe")) plan.now.plan.probes) }
{
    for i in 0..plan.probe_count() {
        let number = plan.probe(i).unwrap();
        put_line(text, b"probe", &[number as usize])?;
    }
    Ok(())
}

pub(crate) fn put_reserved_lines(text: &mut Vec<u8>, plan: &Plan) -> Result<(), NoMemory>
    ensures { OnOk result (text.new.items ≡ text.old.items ++ flat_map (numbered_line (codes "reserved")) (reserved plan.now.plan)) }
{
    for i in 0..plan.reserved_count() {
        let number = plan.reserved(i).unwrap();
        put_line(text, b"reserved", &[number as usize])?;
    }
    Ok(())
}

pub(crate) fn put_idle_lines(text: &mut Vec<u8>, plan: &Plan) -> Result<(), NoMemory>
    ensures { OnOk result (text.new.items ≡ text.old.items ++ flat_map (numbered_line (codes "idle")) (idle plan.now.net plan.now.plan)) }
{
    for i in 0..plan.idle_count() {
        let number = plan.idle(i).unwrap().get();
        put_line(text, b"idle", &[number as usize])?;
    }
    Ok(())
}
