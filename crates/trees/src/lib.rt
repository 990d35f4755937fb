// Whole trees in lent memory: what is done to every slot of a node and of all that hangs below it, and what is read of them. A walk
// over one tree trusts nothing that the memory holds: a slot leads to a cell only where its link stays in the pool, and the level falls at each step down. What joins two
// slots asks for what a sound pool grants: finite values of two leaves, and a link that stays in the pool of a branch that is taken over.
#![tactic(auto)]

pub mod below;
pub mod copy;
pub mod leaf;
pub mod links;
pub mod slot;
pub mod take;
pub mod turn;
