use super::*;
use crate::Door;
use std::net::Ipv4Addr;
use std::test::Fail;

#[test]
fn a_harbour_binds_a_port_once(rt: HostRuntime) -> Result<(), Fail> {
    let taken = TcpListener::bind(&rt, (Ipv4Addr::LOCALHOST, 0))?;
    let at = taken.local_addr()?;
    let mut harbour = TcpHarbour::new(&rt);
    assert_eq!(rt; harbour.open(at.port()).err(), Some(EdgeFault::Failed));
    assert_eq!(rt; harbour.faults, 1);
    drop(taken);

    let (Ok(_first), Ok(mut second)) = (harbour.open(at.port()), harbour.open(at.port())) else {
        return Err(Fail::from("no door"));
    };
    assert_eq!(rt; harbour.faults, 1);
    let _peer = TcpStream::connect(&rt, at)?;
    assert!(rt; second.accept().is_ok());

    // Another port is bound too.
    assert!(rt; harbour.open(0).is_ok());
    Ok(())
}
