//! Bridges over TCP streams of loopback.
use sale_ws::{Gate, Patient, StreamGate};
use std::io::{self, ErrorKind, Read, Write};
use std::net::{Net, SocketAddr, TcpListener, TcpStream};
use std::test::Fail;

/// Two ends of a connection; the first is set to return at once.
fn ends<R: Net<Listener = TcpListener, Stream = TcpStream>>(
    rt: &R,
) -> io::Result<(TcpStream, TcpStream)> {
    let Ok(address) = "127.0.0.1:0".parse::<SocketAddr>() else {
        return Err(io::Error::from(ErrorKind::InvalidInput));
    };
    let listener = TcpListener::bind(rt, address)?;
    let near = TcpStream::connect(rt, listener.local_addr()?)?;
    let (far, _) = listener.accept()?;
    near.set_nonblocking(true)?;
    Ok((near, far))
}

/// Reads until something has come.
fn next_of(gate: &mut StreamGate<Patient>, buf: &mut [u8; 4096]) -> Option<usize> {
    for _ in 0..1_000_000 {
        match gate.read(buf) {
            Ok(Some(count)) => return Some(count),
            Ok(None) => {}
            Err(_) => return None,
        }
    }
    None
}

/// Nothing is there, then bytes, then the end.
#[test]
fn a_connection_is_read(rt: HostRuntime) -> Result<(), Fail> {
    let (near, mut far) = ends(&rt)?;
    let mut gate = StreamGate::new(Patient::new(near));
    let mut buf = [0; 4096];
    assert!(rt; gate.read(&mut buf) == Ok(None));
    far.write_all(&[0x00, 0x00, 0x00, 0x02, 0x7B, 0x7D])?;
    assert_eq!(rt; next_of(&mut gate, &mut buf), Some(6));
    assert!(rt; buf.starts_with(&[0x00, 0x00, 0x00, 0x02, 0x7B, 0x7D]));
    assert!(rt; gate.read(&mut buf) == Ok(None));
    drop(far);
    assert_eq!(rt; next_of(&mut gate, &mut buf), Some(0));
    Ok(())
}

/// What is written comes; a peer that reads nothing is waited for once.
#[test]
fn a_connection_is_written(rt: HostRuntime) -> Result<(), Fail> {
    let (near, mut far) = ends(&rt)?;
    let mut gate = StreamGate::new(Patient::new(near));
    assert!(rt; gate.write(b"abc").is_ok());
    let mut three = [0; 3];
    far.read_exact(&mut three)?;
    assert_eq!(rt; three, *b"abc");
    let mut is_refused = false;
    for _ in 0..10_000 {
        if gate.write(&[0; 4096]).is_err() {
            is_refused = true;
            break;
        }
    }
    assert!(rt; is_refused);
    Ok(())
}
