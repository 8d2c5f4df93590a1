ghost use Rattle.std.specs.Prelude.{◌<◌};

use crate::{Probe, WireFault, decode, encode};
use ternary_bits::Header;

/// The packet of round 1, version 0, entry 1 and the header 1000.
const FIRST: [u8; 33] = [
    0x41, 0x54, 0x50, 0x47, 0, 0, 0, 1, 0, 0, 0, 0, 0, 0, 0, 1, 4, 0x80, 0, 0, 0, 0, 0, 0, 0, 0, 0,
    0, 0, 0, 0, 0, 0,
];

/// That packet with another byte at a place.
fn changed(place: usize, byte: u8) -> [u8; 33]
    requires { place < 33 }
{
    let mut bytes = FIRST;
    bytes[place] = byte;
    bytes
}

#[test]
fn a_probe_goes_into_its_packet_and_back(rt: HostRuntime) {
    let probe = Probe {
        round: 1,
        version: 0,
        entry: 1,
        header: Header::of_number(4, 0b1000),
    };
    assert_eq!(rt; encode(&probe), FIRST);
    assert_eq!(rt; decode(&FIRST), Ok(probe));
    let widest = Probe {
        round: 0x0102_0304,
        version: 0x0506_0708,
        entry: u32::MAX,
        header: Header::of_number(128, 0x8000_0000_0000_0000_0000_0000_0000_0001),
    };
    let packet = encode(&widest);
    assert_eq!(rt; &packet[4..12], [1, 2, 3, 4, 5, 6, 7, 8].as_slice());
    assert_eq!(rt;
        [packet[16], packet[17], packet[18], packet[32]],
        [128, 0x80, 0, 1]
    );
    assert_eq!(rt; decode(&packet), Ok(widest));
}

#[test]
fn a_packet_has_33_bytes(rt: HostRuntime) {
    for len in 0..33 {
        assert_eq!(rt; decode(&FIRST[..len]), Err(WireFault::Short { len }));
    }
    assert_eq!(rt; decode(&[0; 34]), Err(WireFault::Long { len: 34 }));
}

#[test]
fn a_changed_byte_is_found(rt: HostRuntime) {
    assert_eq!(rt; decode(&changed(0, 0x42)), Err(WireFault::BadMark));
    assert_eq!(rt; decode(&changed(17, 0x88)), Err(WireFault::BadWidth));
    for width in 0..=255 {
        let want = if 1 <= width && width <= 128 {
            Ok(u32::from(width))
        } else {
            Err(WireFault::BadWidth)
        };
        let got = decode(&changed(16, width));
        assert_eq!(rt; got.map(|probe| probe.header.bits()), want, "at {width}");
    }
}
