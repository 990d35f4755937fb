// The sign fill of a seat.
#![tactic(auto)]

pub mod fill;
mod leaf;
mod rows;
