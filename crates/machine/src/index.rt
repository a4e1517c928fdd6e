// The index: 64 groups of definitions, by the sum of the name's bytes. The head of a group says where its newest definition stands,
// and the link of each definition where the next older one of its group stands.
ghost use Rattle.std.specs.Prelude.{◌≡◌, ◌+◌, ◌≤◌, ◌<◌, length};
ghost use Rattle.memory.specs.Block.{block};
ghost use Rattle.language.specs.Signs.{cells_limit};
ghost use Rattle.language.specs.Groups.{group, sum};
ghost use Rattle.machine.specs.Walks.{definition_group, removed_at, removed, linked_at, headed_at, link_moved, relinked, restored_at, restored};

use crate::lookup::Standing;
use crate::{layout, lookup};

// The head of a group in which nothing is defined: the mark.
pub const NO_DEFINITION: u32 = layout::MARK;

// The group of the name that stands in so many cells.
pub(crate) fn group(cells: &[u32], from: usize, count: usize) -> usize
    requires { (length cells.now ≤ cells_limit) × (from ≤ 8589934600) × (count ≤ 4294967296) }
    ensures { (result ≡ group (block from count cells.now)) × (result < 64) }
{
    sum(block(cells, from, count)) % 64
}

fn sum(cells: &[u32]) -> usize
    requires { length cells.now ≤ cells_limit }
    ensures { result ≡ sum cells.now }
{
    cells.iter().map(|cell| *cell as usize).sum()
}

// So many cells from a position on, as far as there are cells.
fn block(cells: &[u32], from: usize, count: usize) -> &[u32]
    ensures { result.now ≡ block from count cells.now }
{
    let Some(cells) = cells.get(from..) else {
        return &[];
    };
    cells.get(..count).unwrap_or(cells)
}

// The group of a definition.
fn group_at(cells: &[u32], definition: usize) -> usize
    requires { (length cells.now ≤ cells_limit) × (definition ≤ 4294967296) }
    ensures { (result ≡ definition_group cells.now definition) × (result < 64) }
{
    let letters = layout::name_length(cells, definition);
    group(cells, definition + layout::HEAD_SIZE, letters)
}

// A definition that is the newest of its group goes.
fn remove_one(heads: &mut [u32; 64], cells: &[u32], definition: usize)
    requires { (length cells.now ≤ cells_limit) × (definition ≤ 4294967296) }
    ensures { heads.new ≡ removed_at cells.now heads.old definition }
{
    let group = group_at(cells, definition);
    heads[group] = layout::group_link(cells, definition);
}

// The definitions from one position to another go, the newest first.
#[tactic(auto, using(crate::proofs::Turns::removed_goes_on, crate::proofs::Turns::removed_over))]
pub(crate) fn remove(heads: &mut [u32; 64], cells: &[u32], from: usize, to: usize)
    requires { (length cells.now ≤ cells_limit) × (from ≤ 4294967296) × (to ≤ 4294967296) }
    ensures { heads.new ≡ removed cells.now heads.old from to }
{
    for definition in Standing::between(cells, from, to) {
        remove_one(heads, cells, definition);
    }
}

// A definition comes: it is the newest of its group.
pub(crate) fn insert(heads: &mut [u32; 64], cells: &mut [u32], definition: usize)
    requires { (length cells.old ≤ cells_limit) × (definition ≤ 4294967296) }
    ensures { (cells.new ≡ linked_at cells.old heads.old definition) × (heads.new ≡ headed_at cells.old heads.old definition) }
{
    let group = group_at(cells, definition);
    layout::write_group_link(cells, definition, heads[group]);
    heads[group] = layout::cell(definition);
}

// The link of a definition that has moved up by `by` with all that stood before `end`.
fn link_moved(heads: &[u32; 64], cells: &[u32], definition: usize, end: usize, by: usize) -> u32
    requires { (length cells.now ≤ cells_limit) × (definition ≤ 4294967296) × (by ≤ cells_limit) }
    ensures { result ≡ link_moved cells.now heads.now definition end by }
{
    let link = layout::position(layout::group_link(cells, definition));
    if link < end {
        return layout::cell(link + by);
    }
    let group = group_at(cells, definition);
    heads[group]
}

// The definitions from one position to another have moved: each is linked anew. The heads are of those that did not move.
#[tactic(auto, using(crate::proofs::Turns::relinked_turn, crate::proofs::Turns::relinked_done))]
pub(crate) fn relink(
    heads: &[u32; 64],
    cells: &mut [u32],
    from: usize,
    to: usize,
    end: usize,
    by: usize,
)
    requires { (length cells.old ≤ cells_limit) × (from ≤ 4294967296) × (to ≤ 4294967296) × (by ≤ cells_limit) }
    ensures { cells.new ≡ relinked cells.old heads.now from to end by }
{
    let mut position = from;
    for _ in 0..cells.len() {
        if position >= to {
            return;
        }
        let next = position + lookup::size(cells, position);
        let link = link_moved(heads, cells, position, end, by);
        layout::write_group_link(cells, position, link);
        position = next;
    }
}

// A definition that stands before `to` is the newest of its group, unless one that does is already.
fn restore_one(heads: &mut [u32; 64], cells: &[u32], definition: usize, to: usize)
    requires { (length cells.now ≤ cells_limit) × (definition ≤ 4294967296) }
    ensures { heads.new ≡ restored_at cells.now heads.old definition to }
{
    let group = group_at(cells, definition);
    let head = layout::position(heads[group]);
    if head < to {
        return;
    }
    heads[group] = layout::cell(definition);
}

// The definitions from one position to another, linked already, come back, the newest first.
#[tactic(auto, using(crate::proofs::Turns::restored_goes_on, crate::proofs::Turns::restored_over))]
pub(crate) fn restore(heads: &mut [u32; 64], cells: &[u32], from: usize, to: usize)
    requires { (length cells.now ≤ cells_limit) × (from ≤ 4294967296) × (to ≤ 4294967296) }
    ensures { heads.new ≡ restored cells.now heads.old from to }
{
    for definition in Standing::between(cells, from, to) {
        restore_one(heads, cells, definition, to);
    }
}
