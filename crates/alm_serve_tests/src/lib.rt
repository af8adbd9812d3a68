//! Tests of the server over loopback and over sockets in a folder.
#![tactic(auto)]

#[cfg(test)]
mod browsers;
#[cfg(test)]
mod client;
#[cfg(test)]
mod drawn_client;
#[cfg(test)]
mod drawn_lines;
#[cfg(test)]
mod latch;
#[cfg(test)]
mod one_slot;
#[cfg(test)]
mod one_sync;
#[cfg(test)]
mod ports;
#[cfg(test)]
mod rows;
#[cfg(test)]
mod services;
#[cfg(test)]
mod sockets;
