//! Tests of the linked plant, compared with the plain one.
//!
//! | module | what it runs |
//! |---|---|
//! | `changes`, `exhausted`, `stamps` | worked rows of what no line of the desk shows, as calls on both plants and on copies of them |
//! | `built` | a plant of an image's parts is the plain one of that image, in stamp order if stamps don't follow numbers, then and later |
//! | `drawn` | 10,000 drawn actions through both plants: all lists, windows, ages, moments and rows are compared after each hundred |
//! | `iterated` | lists alarm by alarm are those that fill a vector |
//! | `limits` | both plants at their limits: 16,384 alarms in 64 areas, made, built and copied; the last moment |
//! | `refused` | out of memory: a plant is made whole or not at all |
//!
//! They are in a crate of their own: a crate with tests is proved twice. The worked rows of lines and replies run over both
//! plants in `alm_desk_tests`.
#![tactic(auto)]

#[cfg(test)]
mod asked;
#[cfg(test)]
mod built;
#[cfg(test)]
mod changes;
#[cfg(test)]
mod check;
#[cfg(test)]
mod drawn;
#[cfg(test)]
mod exhausted;
#[cfg(test)]
mod iterated;
#[cfg(test)]
mod limits;
#[cfg(test)]
mod refused;
#[cfg(test)]
mod same;
#[cfg(test)]
mod stamps;
#[cfg(test)]
mod step;
#[cfg(test)]
mod tables;
