//! The values of the server at, below and above each of their limits.
//!
//! The limits are those of the crate page of `alm_types`, copied here by hand. Those of a plant are in `alm_plant_tests`.
#![tactic(auto)]

#[cfg(test)]
mod answers;
#[cfg(test)]
mod attributes;
#[cfg(test)]
mod numbers;
#[cfg(test)]
mod tables;
