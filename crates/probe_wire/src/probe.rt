use ternary_bits::Header;

/// What a packet says: the round, the version of the network and the entry that it is sent for, and its header.
#[derive(Clone, Copy, Debug, PartialEq, Eq)]
pub struct Probe {
    pub round: u32,
    pub version: u32,
    pub entry: u32,
    pub header: Header,
}

/// The round and the version that probes are sent for.
#[derive(Clone, Copy, Debug, PartialEq, Eq)]
pub struct ProbeId {
    pub round: u32,
    pub version: u32,
}
