// Two trees of a sound pool joined, slot by slot: the source's csg.rs for both kinds of node.
#![tactic(auto)]

pub mod combine;
