// What is read of all that hangs below a node.
ghost use Rattle.std.specs.Prelude.{◌≡◌, List, ℕ};
ghost use Rattle.nodes.specs.Layout.{st};
ghost use Rattle.nodes.specs.Range.{Stands};
ghost use Rattle.nodes.specs.Walk.{branching, below};
ghost use Rattle.trees.specs.Below.{hollow_m, reached_m};

use super::links;
use nodes::remove;
use nodes::view::View;

// Some branch below node x of a level has both masks empty.
pub fn hollow(view: &View, level: usize, x: usize) -> bool
    requires { Stands view.now.n level x }
    ensures { (book : List ℕ) → result ≡ hollow_m (branching level) (below level) view.now.n (st view.now.n view.now.slots.now view.now.masks.now book) x }
{
    if level == 0 {
        return false;
    }
    for c in links::links_of(view, level, x) {
        if c < view.n
            && (remove::bare(view.masks, view.n, level - 1, c) || hollow(view, level - 1, 8 + c))
        {
            return true;
        }
    }
    false
}

// The cells below node x of a level.
pub fn reached(view: &View, level: usize, x: usize) -> usize
    requires { Stands view.now.n level x }
    ensures { (book : List ℕ) → result ≡ reached_m (branching level) (below level) view.now.n (st view.now.n view.now.slots.now view.now.masks.now book) x }
{
    if level == 0 {
        return 0;
    }
    let mut cells = 0;
    for c in links::links_of(view, level, x) {
        if c < view.n {
            cells += 1 + reached(view, level - 1, 8 + c);
        }
    }
    cells
}
