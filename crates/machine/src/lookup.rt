// Walks over the cells. Each makes at most so many turns; one that looks for something answers None where it is not there.
ghost use Rattle.std.specs.Prelude.{◌≡◌, ◌+◌, ◌-◌, ◌≤◌, ◌<◌, ◌⊎◌, length, IfSome, MatchOption};
ghost use Rattle.std.specs.Iterator.{at_most};
ghost use Rattle.language.specs.Signs.{cells_limit};
ghost use Rattle.machine.specs.Walks.{nowhere, behind, argument, is_text, chosen, size, is_named, newest, definitions, is_read};

use crate::run::Run;
use crate::{index, layout};

// The length cell of an argument of a list, counted from the one at `from`.
#[tactic(auto, using(crate::proofs::Turns::argument_turn, crate::proofs::Turns::argument_done))]
pub(crate) fn argument(cells: &[u32], from: usize, index: usize) -> Option<usize>
    requires { (from ≤ cells_limit + 4) × (index ≤ nowhere) }
    ensures found { result ≡ argument cells.now from index }
    ensures below { IfSome result (λ p. p ≤ 8589934592) }
{
    let mut position = from;
    for _ in 0..index {
        let length = memory::read(cells, position);
        if length >= layout::MARK {
            return None;
        }
        position += length as usize + 1;
    }
    // A length cell at NOWHERE is none.
    if memory::read(cells, position) >= layout::MARK || position == Run::NOWHERE {
        return None;
    }
    Some(position)
}

// The length cell behind the argument at a length cell.
pub(crate) fn behind(cells: &[u32], argument: usize) -> usize
    requires { argument ≤ cells_limit + 4 }
    ensures { (result ≡ behind cells.now argument) × (result ≤ 8589934592) }
{
    argument + (memory::read(cells, argument) as usize + 1)
}

// The length cell of what IF gives, the list of its call being at `name`: the second of the first pair whose first is `1`.
#[tactic(auto, using(crate::proofs::Turns::chosen_turn, crate::proofs::Turns::chosen_done))]
pub(crate) fn chosen(cells: &[u32], name: usize) -> Option<usize>
    requires { (length cells.now ≤ cells_limit) × (name ≤ cells_limit + 4) }
    ensures found { result ≡ chosen cells.now name }
    ensures below { IfSome result (λ p. p ≤ 8589934592) }
{
    let mut position = name;
    for _ in 0..cells.len() {
        if position >= cells.len() {
            return None;
        }
        let second = argument(cells, position, 2)?;
        if is_text(cells, behind(cells, position), b"1") {
            return Some(second);
        }
        position = second;
    }
    None
}

// Whether the argument at a length cell is exactly this text.
pub(crate) fn is_text(cells: &[u32], argument: usize, text: &[u8]) -> bool
    requires { argument ≤ 8589934592 }
    ensures { result ≡ is_text cells.now argument text.now }
{
    let count = memory::read(cells, argument) as usize;
    memory::same_bytes(cells, argument + 1, count, text)
}

// The newest definition with the name at a length cell: the first that has it in its group.
#[tactic(auto, using(crate::proofs::Turns::newest_turn, crate::proofs::Turns::newest_done))]
pub(crate) fn newest(cells: &[u32], heads: &[u32; 64], name: usize) -> Option<usize>
    requires { (length cells.now ≤ cells_limit) × (name ≤ 8589934592) }
    ensures found { result ≡ newest cells.now heads.now name }
    ensures inside { IfSome result (λ p. p < length cells.now) }
{
    let count = memory::read(cells, name) as usize;
    let group = index::group(cells, name + 1, count);
    let mut position = layout::position(heads[group]);
    for _ in 0..cells.len() {
        if position >= cells.len() {
            return None;
        }
        if is_named(cells, position, name, count) {
            return Some(position);
        }
        position = layout::position(layout::group_link(cells, position));
    }
    None
}

// Whether the definition at a position has the name at a length cell.
fn is_named(cells: &[u32], position: usize, name: usize, count: usize) -> bool
    requires { (position ≤ cells_limit) × (name ≤ 8589934592) }
    ensures { result ≡ is_named cells.now position name count }
{
    let letters = layout::name_length(cells, position);
    if letters != count {
        return false;
    }
    memory::same_blocks(cells, position + layout::HEAD_SIZE, name + 1, count)
}

// The cells of a definition.
pub(crate) fn size(cells: &[u32], definition: usize) -> usize
    requires { definition ≤ 4294967296 }
    ensures { (result ≡ size cells.now definition) × (result ≤ 8589934595) }
{
    let letters = layout::name_length(cells, definition);
    layout::HEAD_SIZE + letters + layout::room(cells, definition)
}

// How many definitions stand from one position to another.
pub(crate) fn definitions(cells: &[u32], from: usize, to: usize) -> usize
    requires { (length cells.now ≤ cells_limit) × (from ≤ 4294967296) × (to ≤ 4294967296) }
    ensures { result ≡ definitions cells.now from to }
{
    Standing::between(cells, from, to).count()
}

// The positions of the definitions from one position to another, at most as many as there are cells.
#[derive(Drop)]
pub(crate) struct Standing<'a> {
    cells: &'a [u32],
    position: usize,
    to: usize,
    turns: usize,
}

impl<'a> Standing<'a> {
    pub(crate) fn between(cells: &'a [u32], from: usize, to: usize) -> Standing<'a>
        ensures { (result.cells.now ≡ cells.now) × (result.position ≡ from) × (result.to ≡ to) × (result.turns ≡ length cells.now) }
    {
        Standing {
            cells,
            position: from,
            to,
            turns: cells.len(),
        }
    }
}

impl<'a> Iterator for Standing<'a> {
    type Item = usize;

    ghost can_next = { λ s. s.to ≤ 4294967296 };

    ghost next_gives = { λ s r t. (t.cells.now ≡ s.cells.now) × (t.to ≡ s.to) × MatchOption r ((s.turns ≡ 0) ⊎ (s.to ≤ s.position)) (λ p. (p ≡ s.position) × (p < s.to) × (t.position ≡ p + size s.cells.now p) × (0 < s.turns) × (t.turns ≡ s.turns - 1)) };

    ghost remaining = { λ s. at_most s.turns };

    fn next(&mut self) -> Option<usize> {
        if self.turns == 0 || self.position >= self.to {
            return None;
        }
        let definition = self.position;
        self.position += size(self.cells, definition);
        self.turns -= 1;
        Some(definition)
    }
}

// Whether the body of a definition is being read.
#[tactic(auto, using(crate::proofs::Turns::is_read_turn, crate::proofs::Turns::is_read_done))]
pub(crate) fn is_read(cells: &[u32], innermost: usize, reading: usize, definition: usize) -> bool
    requires { innermost ≤ nowhere }
    ensures { result ≡ is_read cells.now innermost reading definition }
{
    let mut list = innermost;
    let mut body = reading;
    for _ in 0..cells.len() {
        if list == Run::NOWHERE {
            return false;
        }
        if body == definition {
            return true;
        }
        body = layout::high(layout::return_link(cells, list));
        list = layout::low(layout::list_link(cells, list));
    }
    false
}
