//! The program under test: its words, its faults and its statuses, in a process of the tests' own, and devices in its files. Its
//! reads are interrupted, fail, or give single bytes.
#![tactic(auto)]

#[cfg(test)]
mod devices;
#[cfg(test)]
mod earlier;
#[cfg(test)]
mod exporting;
#[cfg(test)]
mod process;
#[cfg(test)]
mod reading;
#[cfg(test)]
mod running;
#[cfg(test)]
mod runs;
#[cfg(test)]
mod script;
#[cfg(test)]
mod serving;
#[cfg(test)]
mod shown;
#[cfg(test)]
mod stopping;
#[cfg(test)]
mod stories;
#[cfg(test)]
mod told;
#[cfg(test)]
mod upgrading;
