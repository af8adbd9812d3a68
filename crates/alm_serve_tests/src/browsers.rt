//! Requests of HTTP, as a browser sends them for any page.

use crate::client::{asks, connect};
use crate::ports::free_ports;
use crate::rows::worked_disk;
use alm_serve::serve_run;
use std::io::{self, Read, Write};
use std::test::Fail;
use std::thread;
use std::time::Duration;

/// Methods, each with the space after it: the ten that browsers send by themselves, and others that a page can have sent.
const METHODS: [&[u8]; 14] = [
    b"GET ",
    b"HEAD ",
    b"POST ",
    b"PUT ",
    b"DELETE ",
    b"CONNECT ",
    b"OPTIONS ",
    b"TRACE ",
    b"PATCH ",
    b"PRI ",
    b"GETS ",
    b"get ",
    b"NAQTESHI ",
    b"M-SEARCH ",
];

/// What follows a method: the rest of the head, and a body with a line of the protocol.
const REST: &[u8] = b"/ HTTP/1.1\r\nHost: 127.0.0.1\r\n\r\n\n1 CLOCK 1000\n2 STATE 0\n";

/// Whether the clock's port gives no byte for a request by this method, which comes in two pieces.
fn is_ended(rt: &HostRuntime, port: u16, method: &[u8]) -> io::Result<bool> {
    let mut browser = connect(rt, port.saturating_add(17))?;
    let (first, second) = method.split_at(method.len() / 2);
    browser.write_all(first)?;
    thread::sleep(rt, Duration::from_millis(2));
    browser.write_all(second)?;
    let _ = browser.write_all(REST);
    Ok(matches!(browser.read(&mut [0_u8; 1]), Ok(0) | Err(_)))
}

/// Whether each method ends the connection, and a first line that only resembles a request is answered as any other.
fn browse(rt: &HostRuntime, port: u16) -> io::Result<bool> {
    let mut all = true;
    for method in METHODS {
        all = is_ended(rt, port, method)? && all;
    }
    let mut client = connect(rt, port.saturating_add(17))?;
    let lines = b"GETS / HTTP/1\nGET\nget /\nGET / HTTP/1.1\n1 CLOCK 1000\n";
    let replies = b"0 NO 13\n0 NO 13\n0 NO 13\n0 NO 13\n1 OK 1\n";
    Ok(asks(&mut client, lines, replies)? && all)
}

#[test]
fn a_request_of_http_is_neither_answered_nor_done(rt: HostRuntime) -> Result<(), Fail> {
    let port = free_ports(&rt)?;
    let disk = worked_disk(rt.alloc())?.ok_or("format")?;
    let clients = thread::spawn(&rt, move || browse(&rt, port))?;
    let mut output = Vec::new(rt.alloc());
    let served = serve_run(&rt, rt.alloc(), disk, port, 15, &mut output);
    assert!(rt; served == Ok(1));
    assert!(rt; clients.join(&rt)?);
    Ok(())
}
