// The lent memory before any call on a seat: the test that its lengths belong together, preparing it, and the test that the pool in it is sound.
#![tactic(auto)]

pub mod lengths;
pub mod prepare;
pub mod test;
