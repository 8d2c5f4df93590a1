//! A harbour of listening sockets of the system.
ghost use Rattle.std.specs.Prelude.{◌≡◌, ◌≤◌, None, IfOk, OnOk, IfSome, IsSomeAnd, IsErrOf};
ghost use Rattle.byte_edges.specs.Counts.{raised};
ghost use Rattle.byte_edges.specs.OverStd.{unused_door};

use crate::counts::count_fault;
use crate::tcp_door::TcpDoor;
use crate::{EdgeFault, Harbour};
use std::marker::Model;
use std::net::{Net, TcpListener, TcpStream};

/// Opens doors on 127.0.0.1. It binds a port at its first open and gives a further handle of the same listener at each later
/// one.
#[derive(Drop)]
pub struct TcpHarbour<'a, R> {
    rt: &'a R,
    bound: Option<Bound>,
    faults: u64,
}

#[derive(Drop)]
struct Bound {
    port: u16,
    door: TcpDoor,
}

impl<'a, R> Model for TcpHarbour<'a, R> {
    ghost use Rattle.byte_edges.specs.OverStd.{HarbourOverSockets};

    ghost Value = { HarbourOverSockets };

    ghost view = { λ harbour. record { faults = harbour.faults } };
}

impl<'a, R: Net<Listener = TcpListener, Stream = TcpStream>> TcpHarbour<'a, R> {
    pub fn new(rt: &'a R) -> Self
        ensures { result.faults ≡ 0 }
    {
        TcpHarbour {
            rt,
            bound: None,
            faults: 0,
        }
    }
}

impl<'a, R: Net<Listener = TcpListener, Stream = TcpStream>> Harbour for TcpHarbour<'a, R> {
    type Made = TcpDoor;

    ghost doors = { λ _. None };

    ghost faults = { λ harbour. harbour.faults };

    fn open(&mut self, port: u16) -> Result<TcpDoor, EdgeFault>
        ensures door { IfOk result (λ door. door ≡ unused_door) }

        // A failure is counted once.
        ensures failed { IsErrOf result EdgeFault.Failed → self.new.faults ≡ raised self.old.faults 1 }
        ensures steady { OnOk result (self.new.faults ≡ self.old.faults) }
        ensures steady_memory { IsErrOf result EdgeFault.NoMemory → self.new.faults ≡ self.old.faults }
        ensures no_fall { self.old.faults ≤ self.new.faults }
    {
        let answer = door_at(self.rt, &mut self.bound, port);
        self.faults = count_fault(self.faults, &answer);
        answer
    }
}

/// A door at that port: over the listener that is bound, where it is bound there, and otherwise over a new one, which is kept.
fn door_at<R: Net<Listener = TcpListener, Stream = TcpStream>>(
    rt: &R,
    bound: &mut Option<Bound>,
    port: u16,
) -> Result<TcpDoor, EdgeFault>
    ensures door { IfOk result (λ door. door ≡ unused_door) }
    ensures bound { OnOk result (IsSomeAnd bound.new (λ at. at.port ≡ port)) }
    ensures kept { IfSome bound.old (λ at. at.port ≡ port → bound.new ≡ bound.old) }
{
    if let Some(at) = &*bound {
        if at.port == port {
            return at.door.again();
        }
    }
    let door = TcpDoor::bind(rt, port)?;
    let handle = door.again();
    *bound = Some(Bound { port, door });
    handle
}

#[cfg(test)]
mod tests;
