//! Tests of the ends of slots and of batch rings: what the contracts don't cover, and each call once with ample memory.
//! [`one`] makes the receipts, and is proved with the crate itself.
#![tactic(auto)]

#[cfg(test)]
mod batches;
pub mod one;
#[cfg(test)]
mod refused;
#[cfg(test)]
mod rounds;
#[cfg(test)]
mod slots;
#[cfg(test)]
mod threads;
