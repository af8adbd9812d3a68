//! What a server is asked.

use crate::process::Process;
use crate::script::Script;
use alm_common_tests::holds_at;
use alm_program::{Fault, OwnedEndpoints, ServeOrder, run_words};

/// The endpoints, the connections, the patience and the scrubs that a server is asked for.
#[derive(Clone, Copy, Debug)]
enum Wanted<'a> {
    Ports(u16, u32),
    Sockets(&'a str, u32),
    /// Ports, without an end.
    Patient(u16, u32),
    /// The same without a patience, but with scrubs.
    Scrubbed(u16, u32),
    /// The words are wrong.
    Nothing,
}

use Wanted::{Nothing, Patient, Ports, Scrubbed, Sockets};
use std::test::Fail;

/// Words, and how the device `d` is to be served with them.
const ASKED: [(&[u8], Wanted<'static>); 30] = [
    (b"serve\nd\n--port\n1024\n", Ports(1024, 0)),
    (b"serve\n--port\n65518\nd\n--conns\n7\n", Ports(65518, 7)),
    (
        b"serve\n--conns\n4294967295\n--port\n5000\nd\n",
        Ports(5000, 4294967295),
    ),
    (b"serve\nd\n--port\n1023\n", Nothing),
    (b"serve\nd\n--port\n65519\n", Nothing),
    (b"serve\nd\n--port\n05000\n", Nothing),
    (b"serve\nd\n--port\n5000\n--conns\n4294967296\n", Nothing),
    (b"serve\nd\n", Nothing),
    (b"serve\n--port\n5000\n", Nothing),
    (
        b"serve\nd\n--sockets\n/run/plant\n",
        Sockets("/run/plant", 0),
    ),
    (
        b"serve\n--sockets\n5000\n--conns\n2\nd\n",
        Sockets("5000", 2),
    ),
    (b"serve\n--sockets=here\nd\n", Sockets("here", 0)),
    (b"serve\nd\n--sockets\nhere\n--port\n5000\n", Nothing),
    (b"serve\nd\n--sockets\nhere\n--conns\n01\n", Nothing),
    (b"serve\nd\n--sockets\n", Nothing),
    (b"serve\n--sockets\nhere\n", Nothing),
    (b"serve\nd\n--port\n5000\n--patience\n1\n", Patient(5000, 1)),
    (
        b"serve\n--patience\n86400\n--port\n5000\nd\n",
        Patient(5000, 86400),
    ),
    (b"serve\n--patience=30\nd\n--port=5000\n", Patient(5000, 30)),
    (b"serve\nd\n--port\n5000\n--patience\n0\n", Nothing),
    (b"serve\nd\n--port\n5000\n--patience\n86401\n", Nothing),
    (b"serve\nd\n--port\n5000\n--patience\n5s\n", Nothing),
    (b"serve\nd\n--sockets\nhere\n--patience\n", Nothing),
    (b"desk\nd\n--patience\n5\n", Nothing),
    (b"serve\nd\n--port\n5000\n--scrub\n1\n", Scrubbed(5000, 1)),
    (
        b"serve\n--scrub=4294967295\nd\n--port\n5000\n",
        Scrubbed(5000, 4294967295),
    ),
    (b"serve\nd\n--port\n5000\n--scrub\n0\n", Ports(5000, 0)),
    (b"serve\nd\n--port\n5000\n--scrub\n4294967296\n", Nothing),
    (b"serve\nd\n--port\n5000\n--scrub\n1h\n", Nothing),
    (b"show\nd\n--scrub\n5\n", Nothing),
];

/// Whether an order has these endpoints, connections, patience and scrubs.
fn has(order: &ServeOrder, wanted: Wanted<'_>) -> bool {
    let served = (&order.endpoints, order.conns, order.patience, order.scrub);
    match (served, wanted) {
        ((OwnedEndpoints::Ports(port), conns, None, 0), Ports(first, most)) => *port == first
            && conns == most,
        ((OwnedEndpoints::Sockets(folder), conns, None, 0), Sockets(path, most)) => folder.as_str()
            == path
            && conns == most,
        ((OwnedEndpoints::Ports(port), 0, Some(patience), 0), Patient(first, seconds)) => *port
            == first
            && patience == seconds,
        ((OwnedEndpoints::Ports(port), 0, None, scrub), Scrubbed(first, seconds)) => *port == first
            && scrub == seconds,
        _ => false,
    }
}

/// Whether a server is asked for so with these words.
fn is_asked(rt: &HostRuntime, words: &[u8], wanted: Wanted<'_>) -> bool {
    let Ok(all) = [b"alm_server\n", words].concat(rt.alloc()) else {
        return false;
    };
    let process = Process::new(rt, all.as_slice(), Script::new(&[]), 100);
    match run_words(&process) {
        Ok(Some(order)) => order.device.as_str() == "d" && has(&order, wanted),
        Ok(None) => false,
        Err(fault) => matches!(wanted, Nothing) && fault == Fault::Usage,
    }
}

#[test]
fn a_server_is_asked_for_its_endpoints_and_its_options(rt: HostRuntime) -> Result<(), Fail> {
    for (row, (words, wanted)) in ASKED.iter().enumerate() {
        holds_at(row, is_asked(&rt, words, *wanted))?;
    }
    Ok(())
}
