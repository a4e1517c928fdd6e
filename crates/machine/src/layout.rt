// How a run lies in its cells: the one place that knows the offsets.
//
//   a definition   +0 lock   +1 name length   +2 defined length   +3 length now   +4 the next older definition of its group;
//                  then the name, and the value in the room of the defined length
//   an open call   +0 `right` at its `$`   +1 the list being read there   +2 hand and call around it   +3 its arguments
//   a list         +0 as in its call   +1 its size and the list to return to   +2 body and offset to return to   +3 its arguments
//
// An argument is its length and its bytes. The mark ends the arguments of a list, and a group.
ghost use Rattle.std.specs.Prelude.{◌≡◌, ◌≤◌};
ghost use Rattle.machine.specs.Walks.{packed, high, low, cell, is_locked, with_lock, name_length, room, value_length, with_value_length, group_link, with_group_link, with_head, right_before, with_right_before, list_link, return_link, with_links};

// Ends a list, and a group; it is no length and no position.
pub(crate) const MARK: u32 = 65536;

// The cells of a definition beside its name and the room of its value.
pub(crate) const HEAD_SIZE: usize = 5;

// The cells of an open call with an empty name.
pub(crate) const OPEN_SIZE: usize = 4;

// Where the arguments of an open call, or of a list, begin.
pub(crate) const ARGUMENTS: usize = 3;

// The cells of a list beside the bytes of its name and its further arguments.
pub(crate) const LIST_OVERHEAD: usize = 5;

const NAME_LENGTH: usize = 1;

const ROOM: usize = 2;

const VALUE_LENGTH: usize = 3;

const GROUP_LINK: usize = 4;

const LIST_LINK: usize = 1;

const RETURN_LINK: usize = 2;

// Two numbers below 65,536 in one cell.
pub(crate) fn packed(high: usize, low: usize) -> u32
    ensures { result ≡ packed high low }
{
    (high % 65536 * 65536 + low % 65536) as u32
}

pub(crate) fn high(cell: u32) -> usize
    ensures { result ≡ high cell }
{
    (cell / 65536) as usize
}

pub(crate) fn low(cell: u32) -> usize
    ensures { result ≡ low cell }
{
    (cell % 65536) as usize
}

// A number cut to 32 bits.
pub(crate) fn cell(number: usize) -> u32
    ensures { result ≡ cell number }
{
    (number % 4294967296) as u32
}

// Where a definition stands, as a cell or a head has it.
pub(crate) fn position(cell: u32) -> usize
    ensures { result ≡ cell }
{
    cell as usize
}

// Of a definition: whether it is locked.
pub(crate) fn is_locked(cells: &[u32], definition: usize) -> bool
    ensures { result ≡ is_locked cells.now definition }
{
    memory::read(cells, definition) > 0
}

pub(crate) fn write_lock(cells: &mut [u32], definition: usize)
    ensures { cells.new ≡ with_lock cells.old definition }
{
    memory::write(cells, definition, 1);
}

pub(crate) fn name_length(cells: &[u32], definition: usize) -> usize
    requires { definition ≤ 8589934592 }
    ensures { result ≡ name_length cells.now definition }
{
    memory::read(cells, definition + NAME_LENGTH) as usize
}

pub(crate) fn room(cells: &[u32], definition: usize) -> usize
    requires { definition ≤ 8589934592 }
    ensures { result ≡ room cells.now definition }
{
    memory::read(cells, definition + ROOM) as usize
}

pub(crate) fn value_length(cells: &[u32], definition: usize) -> usize
    requires { definition ≤ 8589934592 }
    ensures { result ≡ value_length cells.now definition }
{
    memory::read(cells, definition + VALUE_LENGTH) as usize
}

pub(crate) fn write_value_length(cells: &mut [u32], definition: usize, count: u32)
    requires { definition ≤ 8589934592 }
    ensures { cells.new ≡ with_value_length cells.old definition count }
{
    memory::write(cells, definition + VALUE_LENGTH, count);
}

pub(crate) fn group_link(cells: &[u32], definition: usize) -> u32
    requires { definition ≤ 8589934592 }
    ensures { result ≡ group_link cells.now definition }
{
    memory::read(cells, definition + GROUP_LINK)
}

pub(crate) fn write_group_link(cells: &mut [u32], definition: usize, link: u32)
    requires { definition ≤ 8589934592 }
    ensures { cells.new ≡ with_group_link cells.old definition link }
{
    memory::write(cells, definition + GROUP_LINK, link);
}

// All but the link, which the index writes.
pub(crate) fn write_head(cells: &mut [u32], definition: usize, letters: usize, bytes: usize)
    requires { definition ≤ 8589934592 }
    ensures { cells.new ≡ with_head cells.old definition letters bytes }
{
    memory::write(cells, definition, 0);
    memory::write(cells, definition + NAME_LENGTH, cell(letters));
    memory::write(cells, definition + ROOM, cell(bytes));
    memory::write(cells, definition + VALUE_LENGTH, cell(bytes));
}

// Of an open call, or of a list.
pub(crate) fn right_before(cells: &[u32], at: usize) -> usize
    ensures { result ≡ right_before cells.now at }
{
    memory::read(cells, at) as usize
}

pub(crate) fn write_right_before(cells: &mut [u32], at: usize, right: u32)
    ensures { cells.new ≡ with_right_before cells.old at right }
{
    memory::write(cells, at, right);
}

pub(crate) fn list_link(cells: &[u32], at: usize) -> u32
    requires { at ≤ 8589934592 }
    ensures { result ≡ list_link cells.now at }
{
    memory::read(cells, at + LIST_LINK)
}

pub(crate) fn return_link(cells: &[u32], at: usize) -> u32
    requires { at ≤ 8589934592 }
    ensures { result ≡ return_link cells.now at }
{
    memory::read(cells, at + RETURN_LINK)
}

pub(crate) fn write_links(cells: &mut [u32], at: usize, list: u32, back: u32)
    requires { at ≤ 8589934592 }
    ensures { cells.new ≡ with_links cells.old at list back }
{
    memory::write(cells, at + LIST_LINK, list);
    memory::write(cells, at + RETURN_LINK, back);
}
