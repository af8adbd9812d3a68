//! A device's file: with the standard streams in a process whose standard input is closed, taken away, replaced, and locked.
#![tactic(auto)]

#[cfg(test)]
mod closed_input;
#[cfg(test)]
mod places;
#[cfg(test)]
mod successors;
