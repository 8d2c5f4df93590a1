//! How large a network may be. Readers and command lines cite these.

ghost use Rattle.std.specs.Prelude.{◌≡◌};

/// Bits of a header, at most.
pub const BITS: u32 = 128;
/// Boxes of a network, at most.
pub const BOXES: usize = 4_096;
/// Ports of a network, at most.
pub const PORTS: usize = 16_384;
/// Terminals of a network, at most.
pub const TERMINALS: usize = 256;
/// Rules of a network, at most.
pub const RULES: usize = 65_536;
/// Permits of a terminal, at most.
pub const PERMITS: usize = 64;
/// Forbidden patterns of a terminal, at most.
pub const FORBIDS: usize = 64;

/// Each of them is the number of the definitions, in which these constants don't stand.
pub fn limits_are_numbers()
    ensures bits { BITS ≡ 128 }
    ensures boxes { BOXES ≡ 4096 }
    ensures ports { PORTS ≡ 16384 }
    ensures terminals { TERMINALS ≡ 256 }
    ensures rules { RULES ≡ 65536 }
    ensures permits { PERMITS ≡ 64 }
    ensures forbids { FORBIDS ≡ 64 }
{}
