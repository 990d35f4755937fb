// The calls on the lent memory as a whole and on its seats, each with the tests that it makes first.
// A call takes the three slices one by one, as C lends them.
#![tactic(auto)]

pub mod guard;
pub mod pair;
pub mod seat;
pub mod whole;
