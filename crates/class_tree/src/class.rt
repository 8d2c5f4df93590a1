ghost use Rattle.std.specs.Prelude.{◌≡◌, IfOk};

use header_sets::Space;
use net_types::{PortId, RuleList, TermId};
use no_memory::NoMemory;
use ternary_bits::Rewrite;

/// The headers of one terminal whose walk begins with the same rules and then comes to the same port.
#[derive(Debug, Drop)]
pub struct Class {
    pub from: TermId,
    /// Where the packets are about to enter.
    pub port: PortId,
    /// Their headers as they were sent.
    pub space: Space,
    /// What has become of those headers so far.
    pub rewrite: Rewrite,
    /// The rules that they met, in order.
    pub rules: RuleList,
}

impl Class {
    pub(crate) fn copy(&self) -> Result<Class, NoMemory>
        ensures { IfOk result (λ copy. copy ≡ self.now) }
    {
        Ok(Class {
            from: self.from,
            port: self.port,
            space: self.space.copy()?,
            rewrite: self.rewrite,
            rules: self.rules.copy()?,
        })
    }
}
