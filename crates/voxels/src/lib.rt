// The calls on one voxel of a seat.
// A call takes the three slices one by one, as C lends them.
#![tactic(auto)]

pub mod admit;
pub mod free;
pub mod refusal;
pub mod sign;
pub mod voxel;
