//! A slot that listens.

ghost use Rattle.std.specs.Prelude.{◌≡◌, ◌≤◌, IfOk};

use crate::listening_socket::ListeningSocket;
use crate::port_fault::PortFault;
use crate::slot_bell::SlotBell;
use crate::slot_listener::SlotListener;
use alm_types::Slot;
use mio::net::TcpListener;
use mio::{Poll, Token};
use std::alloc::Global;
use std::net::{Ipv4Addr, Net, SocketAddr};

/// The token of the bell. It is not read: after each poll the bell is attended.
const BELL: Token = Token(2);

/// What a slot listens at, with the poll and the bell of its thread.
#[derive(Drop)]
pub struct Bound {
    pub listener: SlotListener,
    pub poll: Poll,
    pub bell: SlotBell,
    pub slot: Slot,
}

impl Bound {
    ghost use Rattle.std.specs.Prelude.{◌≡◌, ◌≤◌, IfOk};

    /// A slot that listens there.
    pub fn new<R: Net>(
        rt: &R,
        alloc: Global,
        listener: SlotListener,
        slot: Slot,
    ) -> Result<Self, PortFault>
        ensures slot { IfOk result (λ bound. bound.slot ≡ slot) }
    {
        let poll = Poll::new(rt)?;
        let bell = SlotBell::new(alloc, poll.registry(), BELL)?;
        Ok(Bound {
            listener,
            poll,
            bell,
            slot,
        })
    }

    /// Binds the port of a slot: the first slot's is given, each next slot's is one more.
    pub fn at_port<R: Net>(rt: &R, alloc: Global, first: u16, slot: Slot) -> Result<Self, PortFault>
        requires { first ≤ 65518 }
        ensures slot { IfOk result (λ bound. bound.slot ≡ slot) }
    {
        let port = first + u16::from(slot.number());
        let address = SocketAddr::from((Ipv4Addr::LOCALHOST, port));
        let listener = TcpListener::bind(rt, address)?;
        let listener = SlotListener::new(ListeningSocket::Port(listener));
        Bound::new(rt, alloc, listener, slot)
    }
}
