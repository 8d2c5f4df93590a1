ghost use Rattle.std.specs.Prelude.{◌≡◌, ◌≢◌, ◌↔◌, ◌<◌, ◌≤◌, ℕ, length, take, drop, IfOk, IsErrOf, IfSome, Ok, Some, None};
ghost use Rattle.network_model.specs.Bits.{Header as Bits};
ghost use Rattle.probe_wire.specs.Packet.{mark, packet, fields, header_field, IsProbe, IsBadWidth};

use super::fault::WireFault;
use super::probe::Probe;
use super::words::{word32, word128};
use ternary_bits::Header;

/// How many bytes a packet has.
const PACKET: usize = 33;

/// The probe of a packet. Every packet that has none of the faults is read.
pub fn decode(bytes: &[u8]) -> Result<Probe, WireFault>
    ensures ok { IfOk result (λ p. bytes.now ≡ packet p) }
    ensures read { (p : Probe) → IsProbe p → bytes.now ≡ packet p → result ≡ Ok p }
    ensures short { (len : ℕ) → IsErrOf result (WireFault.Short len) ↔ ((length bytes.now < 33) × (len ≡ length bytes.now)) }
    ensures long { (len : ℕ) → IsErrOf result (WireFault.Long len) ↔ ((33 < length bytes.now) × (len ≡ length bytes.now)) }
    ensures mark { IsErrOf result WireFault.BadMark ↔ ((length bytes.now ≡ 33) × (take 4 bytes.now ≢ mark)) }
    ensures width { IsErrOf result WireFault.BadWidth ↔ ((length bytes.now ≡ 33) × (take 4 bytes.now ≡ mark) × IsBadWidth (drop 16 bytes.now)) }
{
    if bytes.len() < PACKET {
        return Err(WireFault::Short { len: bytes.len() });
    }
    if bytes.len() > PACKET {
        return Err(WireFault::Long { len: bytes.len() });
    }
    let (front, rest) = bytes.split_at(4);
    if front != b"ATPG".as_slice() {
        return Err(WireFault::BadMark);
    }
    probe_of(rest).ok_or(WireFault::BadWidth)
}

/// The probe of what stands behind the mark.
fn probe_of(bytes: &[u8]) -> Option<Probe>
    requires { length bytes.now ≡ 29 }
    ensures some { IfSome result (λ p. bytes.now ≡ fields p) }
    ensures read { (p : Probe) → IsProbe p → bytes.now ≡ fields p → result ≡ Some p }
    ensures none { result ≡ None ↔ IsBadWidth (drop 12 bytes.now) }
{
    let (round, rest) = bytes.split_at(4);
    let (version, rest) = rest.split_at(4);
    let (entry, field) = rest.split_at(4);
    let header = header_of(field)?;
    Some(Probe {
        round: word32(round),
        version: word32(version),
        entry: word32(entry),
        header,
    })
}

/// The header of a width and sixteen bytes.
fn header_of(field: &[u8]) -> Option<Header>
    requires { length field.now ≡ 17 }
    ensures some { IfSome result (λ header. field.now ≡ header_field header) }
    ensures read { (header : Bits) → 1 ≤ length header → length header ≤ 128 → field.now ≡ header_field header → result ≡ Some header }
    ensures none { result ≡ None ↔ IsBadWidth field.now }
{
    let width = u32::from(field[0]);
    if width == 0 || width > 128 {
        return None;
    }
    let past = 128 - width;
    let word = word128(&field[1..]);
    if word % (1 << past) != 0 {
        return None;
    }
    Some(Header::of_number(width, word >> past))
}
