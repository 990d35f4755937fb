// The links of a node's branches. Each word of the child mask is read once, and its bits that are on are taken one after the other: no other slot is looked at.
ghost use Rattle.std.specs.Prelude.{◌≡◌, List, length, ℕ, ◌+◌, ◌*◌, ◌<◌, ◌≤◌};
ghost use Rattle.std.specs.Iterator.{YieldsFirst, item_count};
ghost use Rattle.grid.specs.Node.{size};
ghost use Rattle.nodes.specs.Layout.{st};
ghost use Rattle.nodes.specs.Range.{Stands};
ghost use Rattle.nodes.specs.Walk.{branching};
ghost use Rattle.trees.specs.Links.{listed, links_left};

use bitset::OnBits;
use nodes::view::View;
use nodes::{geometry, memory};

// What is still to come: of a group, which is 64 slots with one word in the child mask, the bits that are left, and the groups after it up to the last. It has the two slices
// and not the view that they come from: a view is copied as one piece, for which a small machine calls memcpy.
#[derive(Clone, Copy)]
pub struct Links<'a> {
    slots: &'a [u32],
    masks: &'a [u64],
    group: usize,
    last: usize,
    bits: OnBits,
    ghost order: { group ≤ last },
    ghost words: { 64 * last + 64 ≤ length slots.now },
    ghost kids: { last < length masks.now },
}

// The links of node x of a level, from the first slot to the last.
pub fn links_of<'a>(view: &View<'a>, level: usize, x: usize) -> Links<'a>
    requires { Stands view.now.n level x }
    ensures { (book : List ℕ) → links_left result.slots.now result.masks.now result.last result.group result.bits.rest
        ≡ listed ((st view.now.n view.now.slots.now view.now.masks.now book).kid x) ((st view.now.n view.now.slots.now view.now.masks.now book).slot x) (size (branching level)) }
{
    let group = memory::word_of(x, 0) / 64;
    Links {
        slots: view.slots,
        masks: view.masks,
        group,
        last: group + geometry::size_in(level) / 64 - 1,
        bits: bitset::on_in(view.masks[group]),
    }
}

impl Iterator for Links<'_> {
    type Item = usize;

    ghost next_gives = { YieldsFirst (λ s. links_left s.slots.now s.masks.now s.last s.group s.bits.rest) };

    ghost remaining = { item_count (λ s. links_left s.slots.now s.masks.now s.last s.group s.bits.rest) };

    fn next(&mut self) -> Option<usize> {
        loop {
            if let Some(i) = self.bits.next() {
                return Some(self.slots[64 * self.group + i] as usize);
            }
            if self.group == self.last {
                return None;
            }
            self.group += 1;
            self.bits = bitset::on_in(self.masks[self.group]);
        }
    }
}
