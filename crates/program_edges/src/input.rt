//! The network that a program reads.
ghost use Rattle.std.specs.Prelude.{IfOk, IfErr};
ghost use Rattle.network_model.specs.WellFormed.{IsWellFormed};
ghost use Rattle.program_edges.specs.Input.{HasNetwork, InputRefused, IsNoNetwork};
ghost use Rattle.net_text.specs.Text.{Spells};

use byte_edges::{ReadAll, Source, read_all};
use net_text::{ReadNet, TextFault};
use net_types::Network;
use std::alloc::Global;

/// How many bytes an input may have.
pub const MOST_BYTES: usize = 67_108_864;

/// Why an input is no network.
#[derive(Clone, Copy, Debug, PartialEq, Eq)]
pub enum InputFault {
    /// The source failed.
    ReadFault,
    /// The input is longer than it may be.
    TooLong,
    /// The input is no network, by this fault of this line, counted from 1.
    BadNet { line: u64, fault: TextFault },
    NoMemory,
}

/// The network of the whole input. The faults come in the order reading, length, network.
pub fn read_network<S: Source>(alloc: Global, source: &mut S) -> Result<Network, InputFault>
    ensures ok { IfOk result (λ net. HasNetwork S.left S.given S.ends source.old source.new net) }
    ensures err { IfErr result (λ fault. InputRefused S.left S.given S.ends S.faults source.old source.new fault) }
{
    match read_all(alloc, source, MOST_BYTES) {
        Ok(bytes) => network_of(alloc, &bytes),
        Err(ReadAll::ReadFault) => Err(InputFault::ReadFault),
        Err(ReadAll::TooLong) => Err(InputFault::TooLong),
        Err(ReadAll::NoMemory) => Err(InputFault::NoMemory),
    }
}

/// The network that bytes spell.
fn network_of(alloc: Global, bytes: &[u8]) -> Result<Network, InputFault>
    ensures ok { IfOk result (λ net. Spells bytes.now net × IsWellFormed net) }
    ensures err { IfErr result (λ fault. IsNoNetwork bytes.now fault) }
{
    match net_text::read(alloc, bytes) {
        Ok(net) => {
            // Asked for what it says of the network as a whole.
            let _bits = net.bits();
            Ok(net)
        }
        Err(ReadNet::BadNet { line, fault }) => Err(InputFault::BadNet { line, fault }),
        Err(ReadNet::NoMemory) => Err(InputFault::NoMemory),
    }
}
