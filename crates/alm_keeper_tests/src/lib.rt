//! Tests of the keeper: the worked devices, and a fault and a crash at each device call.
//!
//! What the keeper's contracts say of every device is proved there. Here are the bytes and the numbers that come from
//! outside, what a body that gives up would miss, and each public call once with ample memory.
#![tactic(auto)]

#[cfg(test)]
mod choosers;
#[cfg(test)]
mod course;
#[cfg(test)]
mod damage;
#[cfg(test)]
mod every_call;
#[cfg(test)]
mod formats;
#[cfg(test)]
mod largest;
#[cfg(test)]
mod pieces;
#[cfg(test)]
mod refused;
#[cfg(test)]
mod rows;
#[cfg(test)]
mod shut_half;
#[cfg(test)]
mod steps;
#[cfg(test)]
mod versions;
#[cfg(test)]
mod worked;
