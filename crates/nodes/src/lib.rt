// Cells and slots in lent memory: the nodes of the source's trees, without its heap. Three slices hold a pool of n cells (specs/Layout.antt): the slots' words, the
// masks, and the book. A node is a number: 0 to 7 the tops of the seats, 8 + c cell c. No walk here trusts what the memory holds: it asks for matching lengths alone,
// and tests a link before it follows it, and the stack before it takes a cell or gives one back.
// A cell is a number and no box, since there is no heap; the three slices are what C lends. Functions over one or two of them promise something whatever the others hold.
#![tactic(auto)]

pub mod cells;
pub mod geometry;
pub mod memory;
pub mod pool;
pub mod remove;
pub mod seek;
pub mod view;
pub mod walk;
pub mod wipe;
