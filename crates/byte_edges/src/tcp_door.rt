//! A door over a listening socket of the system.
ghost use Rattle.std.specs.Prelude.{◌≡◌, ⊤, None, Some, IfOk, OnOk, OnErr, IsSomeAnd, IsErrOf};
ghost use Rattle.byte_edges.specs.Counts.{raised};
ghost use Rattle.byte_edges.specs.OverStd.{unused_door, untouched_line};

use crate::counts::{count_fault, raise};
use crate::fault::fault_of;
use crate::tcp_line::TcpLine;
use crate::{Door, EdgeFault};
use std::marker::Model;
use std::net::{Ipv4Addr, Net, TcpListener, TcpStream};

/// Accepts TCP connections to this machine. It does not tell its lines, and is never shut.
#[derive(Drop)]
pub struct TcpDoor {
    listener: TcpListener,
    faults: u64,
    given: u64,
    shut: u64,
}

impl Model for TcpDoor {
    ghost use Rattle.byte_edges.specs.OverStd.{DoorOverSocket};

    ghost Value = { DoorOverSocket };

    ghost view = { λ door. record { faults = door.faults; given = door.given; shut = door.shut } };
}

impl TcpDoor {
    /// Listens on 127.0.0.1. At port 0 the system picks a free one. `Err` comes where the system refuses.
    pub fn bind<R: Net<Listener = TcpListener, Stream = TcpStream>>(
        rt: &R,
        port: u16,
    ) -> Result<Self, EdgeFault>
        ensures { IfOk result (λ door. door ≡ unused_door) }
    {
        match TcpListener::bind(rt, (Ipv4Addr::LOCALHOST, port)) {
            Ok(listener) => Ok(TcpDoor::over(listener)),
            Err(e) => Err(fault_of(&e)),
        }
    }

    /// A second handle of the same listener, with counts of its own. `Err` comes where the system refuses.
    pub fn again(&self) -> Result<Self, EdgeFault>
        ensures { IfOk result (λ door. door ≡ unused_door) }
    {
        match self.listener.try_clone() {
            Ok(listener) => Ok(TcpDoor::over(listener)),
            Err(e) => Err(fault_of(&e)),
        }
    }

    fn over(listener: TcpListener) -> Self
        ensures { result ≡ unused_door }
    {
        TcpDoor {
            listener,
            faults: 0,
            given: 0,
            shut: 0,
        }
    }

    fn next_line(&self) -> Result<TcpLine, EdgeFault>
        ensures { IfOk result (λ line. line ≡ untouched_line) }
    {
        match self.listener.accept() {
            Ok((stream, _)) => Ok(TcpLine::new(stream)),
            Err(e) => Err(fault_of(&e)),
        }
    }
}

impl Door for TcpDoor {
    type Conn = TcpLine;

    ghost lines = { λ _. None };

    ghost back = { λ _. None };

    ghost lent = { λ _. ⊤ };

    ghost faults = { λ door. door.faults };

    ghost given = { λ door. door.given };

    ghost shut = { λ door. door.shut };

    fn accept(&mut self) -> Result<Option<TcpLine>, EdgeFault>
        // It is never shut.
        ensures line { IfOk result (λ answer. IsSomeAnd answer (λ line. line ≡ untouched_line)) }
        ensures given { OnOk result (self.new ≡ record self.old { given = raised self.old.given 1 }) }

        // A failure is counted once.
        ensures failed { IsErrOf result EdgeFault.Failed → self.new ≡ record self.old { faults = raised self.old.faults 1 } }
        ensures steady_memory { IsErrOf result EdgeFault.NoMemory → self.new ≡ self.old }
    {
        let answer = self.next_line();
        self.faults = count_fault(self.faults, &answer);
        let line = answer?;
        self.given = raise(self.given, 1);
        Ok(Some(line))
    }

    fn done(&mut self, conn: TcpLine)
        ensures { self.new ≡ self.old }
    {
        // The connection is closed where it is dropped.
        let _ = conn;
    }
}

#[cfg(test)]
mod tests;
