ghost use Rattle.std.specs.Prelude.{◌≡◌};
ghost use Rattle.probe_wire.specs.Packet.{packet, aligned};

use super::probe::Probe;
use ternary_bits::Header;

/// The packet of a probe: the mark `ATPG`, the round, version and entry with four bytes each, the width of the header, and the
/// header from the top of sixteen bytes. The most significant byte of each number comes first.
#[tactic(auto, unfolding(crate::specs::Packet::four_bytes, crate::specs::Packet::sixteen_bytes))]
pub fn encode(p: &Probe) -> [u8; 33]
    ensures { result ≡ packet p.now }
{
    let [r0, r1, r2, r3] = p.round.to_be_bytes();
    let [v0, v1, v2, v3] = p.version.to_be_bytes();
    let [e0, e1, e2, e3] = p.entry.to_be_bytes();
    let width = p.header.bits() as u8;
    let h = aligned(&p.header).to_be_bytes();
    [
        b'A', b'T', b'P', b'G', r0, r1, r2, r3, v0, v1, v2, v3, e0, e1, e2, e3, width, h[0], h[1],
        h[2], h[3], h[4], h[5], h[6], h[7], h[8], h[9], h[10], h[11], h[12], h[13], h[14], h[15],
    ]
}

/// The header as the highest bits of a word.
fn aligned(header: &Header) -> u128
    ensures { result ≡ aligned header.now }
{
    header.number() << (128 - header.bits())
}
