use super::*;
use std::io::Write;
use std::net::{Ipv4Addr, Shutdown, TcpListener};
use std::test::Fail;

#[test]
fn a_line_answers_as_its_connection_does(rt: HostRuntime) -> Result<(), Fail> {
    let listener = TcpListener::bind(&rt, (Ipv4Addr::LOCALHOST, 0))?;
    let mut peer = TcpStream::connect(&rt, listener.local_addr()?)?;
    let (stream, _) = listener.accept()?;
    let mut line = TcpLine::new(stream);
    let mut into = [0; 4];

    // Nothing has come yet, and it doesn't wait.
    line.stream.set_nonblocking(true)?;
    assert_eq!(rt; line.read(&mut into), Err(EdgeFault::Failed));
    assert_eq!(rt; line.reads.faults, 1);
    assert_eq!(rt; line.write_faults, 0);

    line.stream.set_nonblocking(false)?;
    peer.write_all(b"ab")?;
    assert_eq!(rt; line.read(&mut into), Ok(2));
    assert_eq!(rt; &into[..2], b"ab".as_slice());
    assert_eq!(rt; line.reads.given, 2);

    line.stream.shutdown(Shutdown::Write)?;
    assert_eq!(rt; line.write(b"c"), Err(EdgeFault::Failed));
    assert_eq!(rt; line.reads.faults, 1);
    assert_eq!(rt; line.write_faults, 1);

    peer.shutdown(Shutdown::Write)?;
    assert_eq!(rt; line.read(&mut into), Ok(0));
    assert_eq!(rt; line.reads.ends, 1);
    Ok(())
}
