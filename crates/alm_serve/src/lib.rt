//! The server: the running threads over the slots' ports on loopback, or over their sockets in a folder.
//!
//! ```text
//! let disk = FileDisk::open(rt, "plant.device")?;
//! let all_connections = 0;
//! let count = serve_run(rt, alloc, disk, 5000, all_connections, &mut stdout)?;
//! ```
//!
//! [`serve_ports`] serves at ports of loopback, [`serve_sockets`] at Unix sockets in a folder. It is the same server with the
//! same contract; the first line names the port or the folder. Both return the device. [`serve_run`] is the first of them without a
//! patience, and drops the device.
//!
//! All of them open the device, open the slots, and call [`serve_store`]. It serves an open store at open ports, in the run that its
//! caller has named after the store, and returns that run. The ports' receipts are of this run by their type, so no other run can
//! answer their clients.
//!
//! | step | if it fails | what is written by then |
//! |---|---|---|
//! | opens the device | `Open` with the fault | nothing |
//! | binds the 18 ports from P on, or makes the folder's 18 sockets | `Net` | nothing |
//! | writes `serving P` or `serving FOLDER` | `Write` | a prefix of that line |
//! | starts the threads; joins them at the last connection's end, or after the storage has stopped | `Memory`, `Storage` | that line |
//! | writes `stopped N` | `Write` | both lines, or a prefix |
//!
//! `Memory`, if memory or a thread can't be had, may come at any step after the first.
//!
//! Slot k listens on the k-th port after the first one, or at the socket k of the folder. A [`slot_port::SlotPort`] is the source
//! of a slot: it accepts one connection after another and gives each its turns. What of it is apart from sockets and polls is a
//! [`SlotService`], whose contract names the bytes of any wire. A port notes the bytes of all its connections.
//!
//! | a port | does in a turn |
//! |---|---|
//! | without a connection | accepts the next connection |
//! | with a connection | a turn of its session; if that has ended or failed, it closes the connection |
//! | whose connection has ended | drops the receipts of its requests, until all are answered; then the connection counts as ended |
//! | without work | has its bell wake it, checks once more, and waits for its sockets and the bell, a second at most |
//! | while a device call takes longer than its [`Patience`] | closes its connection and each that comes |
//! | after the last of its connections has ended | says that it has ended |
//!
//! A connection takes no memory beyond the buffers of its slot's session and those of the system: no more is read while
//! a reply is still to be written. So a client that stalls or never reads keeps its own slot busy, and no other. A port
//! keeps its console's end, whatever its clients do.
//!
//! What is used above: what is written, by how it ends; N is how many actions are stored. Also what was run: all slots in
//! threads, from the plant of an image of the device. At each moment of that run, whatever a crash leaves of an honest device
//! encodes a prefix of what was accepted by then. It reaches the moment's floor: what may be reported. The run leads to the
//! device that is returned. `Ok` is returned only after a whole run, and `stopped N` is written only after one; `Storage` is
//! returned only after a run that stopped, with its cause. Of the reports by which a run is whole the contract says only that
//! there are such ones. `Open` says what the device became by an opening's calls, and is the device's fault only if a failure
//! was counted. After `Net`, `Memory`, and `Write` without a whole run, the device is as an opening left it.
//!
//! A [`Scrub`] reads the device's file again in a thread of its own, past what the kernel keeps of it. Damage that two looks find is
//! healed by a checkpoint, which the flusher's thread opens.
//!
//! A device call that hangs can't be ended. With a [`Patience`] the calls of a [`CountedDisk`] are counted, and the ports serve
//! nobody while one takes too long. Requests that were sent before stay: they are done if the call comes back well.
//!
//! Checked by reading: that `read` and `write` of a `StreamWire` make the call which they note, and that accepting and closing a
//! connection makes no such call. Also that a `SlotListener` counts only accepts that failed.
//!
//! Not covered: that a wake comes, that the server ever ends, and time. Nor that a connection is closed only for a cause, and that a
//! port ends only once its connections are over. There are no accounts: a client that reaches a port of loopback, or may open a
//! socket, has the role of its slot.
//!
//! Proved:
//! - over any wire a slot's service writes and sends what its session does in its turns, and nothing else
//!   (by `SlotService`)
//! - a connection begins fresh over the given wire, once all requests of the last one are answered (by `SlotService`)
//! - as long as no whole line has come nothing is sent and nothing written (by `laws::nothing_goes_out_unasked`)
//! - a port is the source of its slot alone, whatever its clients do, and sends what its service does (by `SlotPort`,
//!   `StreamWire`)
//! - **in each turn a port serves whoever is there**, unless it ends or a device call takes too long. A connection gets a turn that
//!   went or could do nothing, and of an ended one the receipts are received. Else nobody waits (by `SlotPort`)
//! - a port and a bell for each slot asked for, in order, and nobody connected (by `open_ports`, `open_sockets`)
//! - **of an open store and its ports: a run over it with these sources. All that a console sent and received was so in turns of
//!   its port's session** (by `serve_store`)
//! - **of each connection of such a port the lines are answered in order, and what was written is a prefix of the replies** (by
//!   `serve_store`)
//! - what a connection's reads give doesn't begin as a request of HTTP, whatever its method. A connection that does has ended, and
//!   no other has for its first bytes (by `StreamWire`, `PlainBytes`)
//! - what the server writes, by how it ends, or a prefix if the writer fails; why a device isn't opened (by `serve_ports`,
//!   `serve_sockets`)
//! - **from a plant that an image of its device holds, a run of all 18 slots, up to the device returned; it names no
//!   consoles** (by `serve_ports`, `serve_sockets`)
//! - if nothing was run, the device is as an opening left it (by `serve_ports`, `serve_sockets`)
//! - it says that the storage stopped only with the run's cause; if that is a failed step, an honest device failed or is at its
//!   last epoch (by `serve_ports`, `serve_sockets`)
#![tactic(auto)]

mod bound;
mod call_count;
mod call_watch;
mod connection;
mod connection_count;
mod counted_disk;
mod first_bytes;
mod first_line;
mod found;
pub mod laws;
mod listen;
mod listening_socket;
mod opening;
mod patience;
mod plain_bytes;
mod port_fault;
mod ports;
mod scrub;
mod serve_fault;
mod served;
mod server_end;
mod serving;
mod slot_bell;
mod slot_listener;
mod slot_port;
mod slot_service;
mod slot_stream;
mod socket_folder;
mod sockets;
mod stopper;
mod store_end;
mod stream_wire;
mod traffic;
mod transcript;

pub use counted_disk::CountedDisk;
pub use found::Found;
pub use listen::Listen;
pub use opening::SlotPorts;
pub use patience::Patience;
pub use port_fault::PortFault;
pub use scrub::Scrub;
pub use serve_fault::ServeFault;
pub use served::Served;
pub use server_end::ServerEnd;
pub use serving::{PortsEnd, serve_ports, serve_run, serve_sockets, serve_store};
pub use slot_port::SlotPort;
pub use slot_service::SlotService;
pub use store_end::StoreEnd;
