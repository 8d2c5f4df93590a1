use super::*;
use crate::{Harbour, Sink, Source, TcpHarbour};
use std::io::{Read, Write};
use std::net::IpAddr;
use std::test::Fail;

fn may_cross<T: Send>(_: &T) {}

#[test]
fn bytes_go_both_ways(rt: HostRuntime) -> Result<(), Fail> {
    let mut harbour = TcpHarbour::new(&rt);
    let (Ok(first), Ok(mut door)) = (harbour.open(0), harbour.open(0)) else {
        return Err(Fail::from("no door"));
    };
    may_cross(&door);
    let mut peer = TcpStream::connect(&rt, first.listener.local_addr()?)?;
    let Ok(Some(mut line)) = door.accept() else {
        return Err(Fail::from("no line"));
    };
    peer.write_all(b"stop\n")?;
    let mut into = [0; 16];
    assert_eq!(rt; line.read(&mut into), Ok(5));
    assert_eq!(rt; &into[..5], b"stop\n".as_slice());
    assert_eq!(rt; line.write(b"bye\n"), Ok(4));
    door.done(line);
    let mut reply = Vec::new(rt.alloc());
    assert_eq!(rt; peer.read_to_end(&mut reply)?, 4);
    assert_eq!(rt; reply.as_slice(), b"bye\n".as_slice());
    Ok(())
}

/// A door at a port that is known beforehand. Another process may take that port in between, so it tries a few times.
fn door_at_known_port(rt: &HostRuntime) -> Result<(TcpDoor, u16), Fail> {
    for _ in 0..8 {
        let free = TcpListener::bind(rt, (Ipv4Addr::LOCALHOST, 0))?;
        let port = free.local_addr()?.port();
        drop(free);
        if let Ok(door) = TcpDoor::bind(rt, port) {
            return Ok((door, port));
        }
    }
    Err(Fail::from("no port"))
}

#[test]
fn a_door_stands_at_the_port_asked_for(rt: HostRuntime) -> Result<(), Fail> {
    let (door, port) = door_at_known_port(&rt)?;
    let at = door.listener.local_addr()?;
    assert_eq!(rt; at.port(), port);
    assert_eq!(rt; at.ip(), IpAddr::V4(Ipv4Addr::LOCALHOST));
    assert_eq!(rt; TcpDoor::bind(&rt, port).err(), Some(EdgeFault::Failed));
    Ok(())
}

#[test]
fn a_second_handle_accepts_at_the_same_port(rt: HostRuntime) -> Result<(), Fail> {
    let (door, port) = door_at_known_port(&rt)?;
    let Ok(mut second) = door.again() else {
        return Err(Fail::from("no second handle"));
    };
    drop(door);
    let _peer = TcpStream::connect(&rt, (Ipv4Addr::LOCALHOST, port))?;
    assert!(rt; second.accept().is_ok());
    Ok(())
}

#[test]
fn a_failed_accept_is_counted_once(rt: HostRuntime) -> Result<(), Fail> {
    let (mut door, port) = door_at_known_port(&rt)?;

    // Nobody has come yet, and it doesn't wait.
    door.listener.set_nonblocking(true)?;
    assert_eq!(rt; door.accept().err(), Some(EdgeFault::Failed));
    assert_eq!(rt; [door.faults, door.given, door.shut], [1, 0, 0]);

    door.listener.set_nonblocking(false)?;
    let _peer = TcpStream::connect(&rt, (Ipv4Addr::LOCALHOST, port))?;
    let Ok(Some(_line)) = door.accept() else {
        return Err(Fail::from("no line"));
    };
    assert_eq!(rt; [door.faults, door.given, door.shut], [1, 1, 0]);
    Ok(())
}
