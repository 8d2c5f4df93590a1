//! The server over TCP on 127.0.0.1.

use super::daemon::daemon;
use super::status::Status;
use super::tests::{NETWORK, source, words_of};
use byte_edges::{Harbour, TcpHarbour};
use std::alloc::{AllocError, Global};
use std::io::{Read, Write};
use std::net::{Ipv4Addr, TcpListener, TcpStream};
use std::test::Fail;

const REPLIES: &[u8] = b"current 0\nbye\n";

/// A harbour that listens already, so that peers can come before the server runs, and its port, which no server knew before.
/// Another process may take that port in between, so it tries a few times.
fn harbour_at_free_port(rt: &HostRuntime) -> Result<(TcpHarbour<'_, HostRuntime>, u16), Fail> {
    for _ in 0..8 {
        let free = TcpListener::bind(rt, (Ipv4Addr::LOCALHOST, 0))?;
        let port = free.local_addr()?.port();
        drop(free);
        let mut harbour = TcpHarbour::new(rt);
        if harbour.open(port).is_ok() {
            return Ok((harbour, port));
        }
    }
    Err(Fail::from("no port"))
}

/// A peer that has sent these lines.
fn peer(rt: &HostRuntime, port: u16, lines: &[u8]) -> Result<TcpStream, Fail> {
    let mut stream = TcpStream::connect(rt, (Ipv4Addr::LOCALHOST, port))?;
    stream.write_all(lines)?;
    Ok(stream)
}

/// All that a peer is sent, until its connection is closed.
fn heard(alloc: Global, mut peer: TcpStream) -> Result<Vec<u8>, Fail> {
    let mut taken = Vec::new(alloc);
    peer.read_to_end(&mut taken)?;
    Ok(taken)
}

/// The words of a server with two seats at this port.
fn words_for(alloc: Global, port: u16) -> Result<Vec<String>, AllocError> {
    let line = format!(in alloc; "--port {port} --seats 2")?;
    words_of(alloc, line.as_str())
}

#[test]
fn answers_over_connections(rt: HostRuntime) -> Result<(), Fail> {
    let alloc = rt.alloc();
    let (mut harbour, port) = harbour_at_free_port(&rt)?;
    let first = peer(&rt, port, b"current\nstop\n")?;
    let second = peer(&rt, port, b"current\nquit\n")?;
    let third = peer(&rt, port, b"current\nstop\n")?;
    let words = words_for(alloc, port)?;
    let mut from = source(alloc, NETWORK, &[])?;
    let (status, hosted) = daemon(&rt, alloc, &words, &mut from, &mut harbour);
    assert_eq!(rt; status, Status::Done);
    drop(hosted);

    assert_eq!(rt; heard(alloc, first)?.as_slice(), REPLIES);
    assert_eq!(rt; heard(alloc, second)?.as_slice(), REPLIES);
    assert_eq!(rt; heard(alloc, third)?.as_slice(), REPLIES);
    Ok(())
}
