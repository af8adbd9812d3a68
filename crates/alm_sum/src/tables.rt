//! What is looked up: one table for each number of shifts.

pub mod table_16;
pub mod table_24;
pub mod table_32;
pub mod table_40;
pub mod table_48;
pub mod table_56;
pub mod table_64;
pub mod table_8;
