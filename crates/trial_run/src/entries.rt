//! The probes of a plan.
ghost use Rattle.std.specs.Prelude.{◌≡◌, IfOk};

use no_memory::NoMemory;
use rule_cover::Plan;
use std::alloc::Global;

/// The entry numbers of the probes, in order of choice.
pub(crate) fn probes_of(alloc: Global, plan: &Plan) -> Result<Vec<u32>, NoMemory>
    ensures { IfOk result (λ probes. probes.items ≡ plan.now.plan.probes) }
{
    let mut probes = Vec::with_capacity(alloc, plan.probe_count())?;
    for i in 0..plan.probe_count() {
        let number = plan.probe(i).unwrap();
        probes.push(number)?;
    }
    Ok(probes)
}
