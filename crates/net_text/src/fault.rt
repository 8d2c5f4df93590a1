ghost use Rattle.std.specs.Prelude.{◌≡◌};
ghost use Rattle.net_text.specs.Stops.{stop_of, at_line};

use net_types::NetFault;
use no_memory::NoMemory;
use std::alloc::AllocError;

/// What is wrong with a line of a network text.
#[derive(Clone, Copy, Debug, PartialEq, Eq)]
pub enum TextFault {
    /// The first line with words isn't three words, the first `atpg-net`; or no line has a word.
    NoHead,
    /// The head is of another version.
    Version,
    /// The first word is no known one, the number of words is wrong, or a role is none.
    Words,
    /// A word is no number, and should be one.
    Number,
    /// A word is no pattern or rewrite, and should be one.
    Letters,
    /// The network doesn't take what the line declares.
    Net(NetFault),
}

/// Why no network was read.
#[derive(Clone, Copy, Debug, PartialEq, Eq)]
pub enum ReadNet {
    /// The first line at fault, counted from 1, and its first fault.
    BadNet { line: u64, fault: TextFault },
    /// There was no memory left.
    NoMemory,
}

impl From<NoMemory> for ReadNet {
    ghost use Rattle.net_text.specs.declared.fault.ReadNet.TheVariants as reads;

    ghost from_gives = { λ _ error. error ≡ reads.NoMemory };

    fn from(_: NoMemory) -> Self {
        ReadNet::NoMemory
    }
}

impl From<AllocError> for ReadNet {
    ghost use Rattle.net_text.specs.declared.fault.ReadNet.TheVariants as reads;

    ghost from_gives = { λ _ error. error ≡ reads.NoMemory };

    fn from(_: AllocError) -> Self {
        ReadNet::NoMemory
    }
}

/// Why reading stops at a line.
#[derive(Clone, Copy, Debug, PartialEq, Eq)]
pub(crate) enum Stop {
    Fault(TextFault),
    NoMemory,
}

impl Stop {
    /// What is said of the line of that number.
    pub(crate) fn at_line(self, line: u64) -> ReadNet
        ensures { result ≡ at_line line self }
    {
        match self {
            Stop::Fault(fault) => ReadNet::BadNet { line, fault },
            Stop::NoMemory => ReadNet::NoMemory,
        }
    }
}

impl From<TextFault> for Stop {
    ghost use Rattle.net_text.specs.declared.fault.Stop.TheVariants as stops;

    ghost from_gives = { λ fault stop. stop ≡ stops.Fault fault };

    fn from(fault: TextFault) -> Self {
        Stop::Fault(fault)
    }
}

impl From<NetFault> for Stop {
    ghost from_gives = { λ fault stop. stop ≡ stop_of fault };

    fn from(fault: NetFault) -> Self {
        match fault {
            NetFault::NoMemory => Stop::NoMemory,
            fault => Stop::Fault(TextFault::Net(fault)),
        }
    }
}
