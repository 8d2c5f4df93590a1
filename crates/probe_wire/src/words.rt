//! Numbers of 32 and 128 bits from bytes, the most significant first.
ghost use Rattle.std.specs.Prelude.{◌≡◌, length};
ghost use Rattle.probe_wire.specs.Packet.{four_bytes, sixteen_bytes, word_of};

/// The number that four bytes spell.
#[tactic(auto, unfolding(crate::specs::Packet::four_bytes))]
pub(crate) fn word32(bytes: &[u8]) -> u32
    requires { length bytes.now ≡ 4 }
    ensures { four_bytes result ≡ bytes.now }
{
    u32::from_be_bytes([bytes[0], bytes[1], bytes[2], bytes[3]])
}

/// The number that sixteen bytes spell.
#[tactic(auto, unfolding(crate::specs::Packet::sixteen_bytes, crate::specs::Packet::word_of))]
pub(crate) fn word128(bytes: &[u8]) -> u128
    requires { length bytes.now ≡ 16 }
    ensures value { result ≡ word_of bytes.now }
    ensures bytes { sixteen_bytes result ≡ bytes.now }
{
    u128::from_be_bytes([
        bytes[0], bytes[1], bytes[2], bytes[3], bytes[4], bytes[5], bytes[6], bytes[7], bytes[8],
        bytes[9], bytes[10], bytes[11], bytes[12], bytes[13], bytes[14], bytes[15],
    ])
}
