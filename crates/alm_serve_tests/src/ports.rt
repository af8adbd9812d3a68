//! Ports that are free.

ghost use Rattle.std.specs.Prelude.{◌≤◌, IfOk};

use std::io::{self, ErrorKind};
use std::net::{Ipv4Addr, SocketAddr, TcpListener};

/// The first of the ranges of ports: below those that the system gives to clients.
const LOWEST: u16 = 10_000;

/// How many ranges there are.
const RANGES: u16 = 1_200;

/// How many ports a server has.
const PORTS: u16 = 18;

/// Whether the ports of a server can be bound from this one on.
fn are_free(rt: &HostRuntime, first: u16) -> bool {
    for number in 0..PORTS {
        let address = SocketAddr::from((Ipv4Addr::LOCALHOST, first.saturating_add(number)));
        if TcpListener::bind(rt, address).is_err() {
            return false;
        }
    }
    true
}

/// The first port of a server whose ports are free. The search begins by a port that the system picks, so that two
/// tests rarely meet.
pub fn free_ports(rt: &HostRuntime) -> io::Result<u16>
    ensures { IfOk result (λ port. port ≤ 65518) }
{
    let any = SocketAddr::from((Ipv4Addr::LOCALHOST, 0));
    let picked = TcpListener::bind(rt, any)?.local_addr()?.port();
    for turn in 0..RANGES {
        let range = picked.wrapping_add(turn) % RANGES;
        let first = LOWEST + range * PORTS;
        if are_free(rt, first) {
            return Ok(first);
        }
    }
    Err(io::Error::new(ErrorKind::AddrInUse, "no free ports"))
}
