//! The rows of bridges.
use crate::play::{at_gateway, at_peer, four, one_message, silent, socket, two_chunks};
use sale_ws::{Bridge, BridgeFault, Bridged};
use std::test::Fail;

#[test]
fn a_message_is_framed(rt: HostRuntime) -> Result<(), Fail> {
    let alloc = rt.alloc();
    let bytes = [0x82, 0x82, 0x00, 0x00, 0x00, 0x00, 0x7B, 0x7D];
    let mut bridge = Bridge::new(alloc, socket(alloc, &bytes), silent(alloc, None))?;
    assert!(rt; bridge.turn(alloc) == Ok(Bridged::Went));
    assert_eq!(rt;
        at_gateway(&bridge),
        [0x00, 0x00, 0x00, 0x02, 0x7B, 0x7D].as_slice()
    );
    Ok(())
}

#[test]
fn a_frame_in_two_chunks_becomes_a_message(rt: HostRuntime) -> Result<(), Fail> {
    let alloc = rt.alloc();
    let bytes = [
        0x8A, 0x80, 0x00, 0x00, 0x00, 0x00, 0x8A, 0x80, 0x00, 0x00, 0x00, 0x00,
    ];
    let mut bridge = Bridge::new(alloc, socket(alloc, &bytes), two_chunks(alloc)?)?;
    assert!(rt; bridge.turn(alloc) == Ok(Bridged::Went));
    assert_eq!(rt; at_peer(&bridge).len(), 0);
    assert!(rt; bridge.turn(alloc) == Ok(Bridged::Went));
    assert_eq!(rt; at_peer(&bridge), [0x82, 0x02, 0x7B, 0x7D].as_slice());
    assert_eq!(rt; at_gateway(&bridge).len(), 0);
    Ok(())
}

#[test]
fn a_length_of_zero_is_refused_on_both_sides(rt: HostRuntime) -> Result<(), Fail> {
    let alloc = rt.alloc();
    let pong = [0x8A, 0x80, 0x00, 0x00, 0x00, 0x00];
    let mut bridge = Bridge::new(alloc, socket(alloc, &pong), four(alloc, [0; 4])?)?;
    assert!(rt; bridge.turn(alloc) == Err(BridgeFault::Frame));
    let empty = [0x82, 0x80, 0x00, 0x00, 0x00, 0x00];
    let mut bridge = Bridge::new(alloc, socket(alloc, &empty), silent(alloc, None))?;
    assert!(rt; bridge.turn(alloc) == Err(BridgeFault::Length { length: 0 }));
    Ok(())
}

/// A text is a message like any other; the peer's close ends the bridge, and is acknowledged.
#[test]
fn a_text_and_a_close(rt: HostRuntime) -> Result<(), Fail> {
    let alloc = rt.alloc();
    let bytes = [
        0x81, 0x82, 0x00, 0x00, 0x00, 0x00, 0x7B, 0x7D, 0x88, 0x80, 0x00, 0x00, 0x00, 0x00,
    ];
    let mut bridge = Bridge::new(alloc, socket(alloc, &bytes), silent(alloc, None))?;
    assert!(rt; bridge.turn(alloc) == Ok(Bridged::Went));
    assert_eq!(rt;
        at_gateway(&bridge),
        [0x00, 0x00, 0x00, 0x02, 0x7B, 0x7D].as_slice()
    );
    assert!(rt; bridge.turn(alloc) == Ok(Bridged::Ended));
    let mut wire = bridge.into_wire();
    wire.close();
    assert_eq!(rt;
        wire.socket().get_ref().writer.as_slice(),
        [0x88, 0x00].as_slice()
    );
    Ok(())
}

/// A frame without a mask isn't one of a till, and a stream that ends without a close has failed: neither is an end of the socket.
#[test]
fn a_broken_socket_fails(rt: HostRuntime) -> Result<(), Fail> {
    let alloc = rt.alloc();
    let unmasked = [0x82, 0x02, 0x7B, 0x7D];
    let mut bridge = Bridge::new(alloc, socket(alloc, &unmasked), silent(alloc, None))?;
    assert!(rt; bridge.turn(alloc) == Err(BridgeFault::Socket));
    let mut bridge = Bridge::new(alloc, socket(alloc, &[]), silent(alloc, None))?;
    assert!(rt; bridge.turn(alloc) == Err(BridgeFault::Socket));
    Ok(())
}

/// A socket in memory gives its message, and then the end.
#[test]
fn a_socket_in_memory(rt: HostRuntime) -> Result<(), Fail> {
    let alloc = rt.alloc();
    let mut bridge = Bridge::new(alloc, one_message(alloc, None)?, two_chunks(alloc)?)?;
    assert!(rt; bridge.turn(alloc) == Ok(Bridged::Went));
    assert!(rt; !bridge.is_idle());
    assert_eq!(rt;
        bridge.gate().sent().as_slice(),
        [0x00, 0x00, 0x00, 0x02, 0x7B, 0x7D].as_slice()
    );
    assert!(rt; bridge.turn(alloc) == Ok(Bridged::Ended));
    assert_eq!(rt; bridge.wire().sent().len(), 0);
    Ok(())
}

/// Each side fails in the call that is to fail.
#[test]
fn each_side_fails(rt: HostRuntime) -> Result<(), Fail> {
    let alloc = rt.alloc();
    let mut bridge = Bridge::new(alloc, one_message(alloc, Some(0))?, silent(alloc, None))?;
    assert!(rt; bridge.turn(alloc) == Err(BridgeFault::Socket));
    let mut bridge = Bridge::new(alloc, one_message(alloc, None)?, silent(alloc, Some(0)))?;
    assert!(rt; bridge.turn(alloc) == Err(BridgeFault::Gate));
    Ok(())
}
