//! Tests of the texts on the device.
//!
//! | module | what it tries |
//! |---|---|
//! | `actions` | the texts of actions, and bytes that are no action's text |
//! | `frames` | written frames, and the place of each damage |
//! | `gates` | each value of a gate in each version |
//! | `images` | worked images, and bytes of one changed |
//! | `largest` | the image of 16,384 alarms in 64 areas |
//! | `damages` | each field of an image at its limits and beyond, with the place of the damage |
//!
//! They are in a crate of their own: a crate with tests is proved twice.
#![tactic(auto)]

#[cfg(test)]
mod actions;
#[cfg(test)]
mod damages;
#[cfg(test)]
mod frames;
#[cfg(test)]
mod gates;
#[cfg(test)]
mod images;
#[cfg(test)]
mod largest;
#[cfg(test)]
mod worked;
