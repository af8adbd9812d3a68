//! A client of a slot.

use std::io::{self, Read, Write};
use std::net::{Ipv4Addr, SocketAddr, TcpStream};
use std::thread;
use std::time::Duration;

/// Connects to a port of loopback, as soon as it is bound: it tries for some seconds.
pub fn connect(rt: &HostRuntime, port: u16) -> io::Result<TcpStream> {
    let address = SocketAddr::from((Ipv4Addr::LOCALHOST, port));
    for _ in 0..2000_u32 {
        if let Ok(stream) = TcpStream::connect(rt, address) {
            return Ok(stream);
        }
        thread::sleep(rt, Duration::from_millis(5));
    }
    TcpStream::connect(rt, address)
}

/// Whether a stream gives these bytes next.
pub fn gives<S: Read>(stream: &mut S, bytes: &[u8]) -> io::Result<bool> {
    let mut one = [0_u8; 1];
    for byte in bytes {
        if stream.read(&mut one)? == 0 || one[0] != *byte {
            return Ok(false);
        }
    }
    Ok(true)
}

/// Sends lines and reads these replies.
pub fn asks<S: Read + Write>(stream: &mut S, lines: &[u8], replies: &[u8]) -> io::Result<bool> {
    stream.write_all(lines)?;
    gives(stream, replies)
}
