// Total helpers on lent cells and bytes. No position, count or content can make one fail: what lies outside a slice is
// read as 0, and a write or a block that does not lie within its slice changes nothing.
#![tactic(auto)]

ghost use Rattle.std.specs.Prelude.{◌≡◌, ℕ, ◌&&◌, ◌+◌, ◌<◌, length, get_or, set, slice_index_or, leb};
ghost use Rattle.memory.specs.Block.{moved, copied, low_bytes, same, same_blocks, same_bytes, repeated, filled};

// The cell at a position, and 0 outside.
pub fn read(cells: &[u32], at: usize) -> u32
    ensures { result ≡ get_or cells.now at 0 }
{
    cells.get(at).copied().unwrap_or(0)
}

// A value into the cell at a position, and nothing outside.
pub fn write(cells: &mut [u32], at: usize, value: u32)
    ensures { cells.new ≡ set cells.old at value }
{
    put(cells, at, value);
}

// A byte to a position, and nothing outside.
pub fn write_byte(bytes: &mut [u8], at: usize, value: u8)
    ensures { bytes.new ≡ set bytes.old at value }
{
    put(bytes, at, value);
}

// What `write` and `write_byte` share.
fn put<T: Copy>(items: &mut [T], at: usize, value: T)
    ensures { items.new ≡ set items.old at value }
{
    if at < items.len() {
        items[at] = value;
    }
}

// Whether `count` elements from `from` on lie within `len`.
fn lies_within(from: usize, count: usize, len: usize) -> bool
    ensures { result ≡ leb (from + count) len }
{
    from.checked_add(count).is_some_and(|end| end <= len)
}

// The same of a block in a slice of `source` elements and of its place in one of `target`.
fn both_lie(from: usize, source: usize, to: usize, target: usize, count: usize) -> bool
    ensures { result ≡ leb (from + count) source && leb (to + count) target }
{
    lies_within(from, count, source) && lies_within(to, count, target)
}

// A block moved up or down within the cells; the two places may overlap.
pub fn move_block(cells: &mut [u32], from: usize, to: usize, count: usize)
    ensures { cells.new ≡ moved from to count cells.old }
{
    if both_lie(from, cells.len(), to, cells.len(), count) {
        cells.copy_within(from..from + count, to);
    }
}

// A block of cells to the bytes of an output, the low eight bits of each cell.
#[tactic(auto, unfolding(crate::specs::Block::low_bytes))]
pub fn copy_to_bytes(cells: &[u32], from: usize, output: &mut [u8], to: usize, count: usize)
    ensures { output.new ≡ copied from to count (low_bytes cells.now) output.old }
{
    if both_lie(from, cells.len(), to, output.len(), count) {
        copy_converted(
            &cells[from..from + count],
            &mut output[to..to + count],
            |cell| (cell % 256) as u8,
        );
    }
}

// The first bytes into cells, one byte to a cell.
pub fn copy_from_bytes(bytes: &[u8], cells: &mut [u32], to: usize, count: usize)
    ensures { cells.new ≡ copied 0 to count bytes.now cells.old }
{
    if both_lie(0, bytes.len(), to, cells.len(), count) {
        copy_converted(&bytes[..count], &mut cells[to..to + count], u32::from);
    }
}

// Each element of the source, converted, to its place in the target.
fn copy_converted<S: Copy, T: Copy, F: Fn(S) -> T>(source: &[S], target: &mut [T], convert: F)
    requires same_length { length source.now ≡ length target.old }
    requires callable { F.IsAlwaysCallable convert }
    ensures { (k : ℕ) (x : S) (y : T) → k < length target.old
        → F.post convert (slice_index_or source.now k x) (slice_index_or target.new k y) }
{
    for (at, place) in target.iter_mut().enumerate() {
        *place = convert(source[at]);
    }
}

// The first bytes to the bytes of an output. The library's copy of a slice would ask every C program for `memmove`.
pub fn copy_bytes(bytes: &[u8], output: &mut [u8], to: usize, count: usize)
    ensures { output.new ≡ copied 0 to count bytes.now output.old }
{
    if both_lie(0, bytes.len(), to, output.len(), count) {
        copy_converted(&bytes[..count], &mut output[to..to + count], |byte| byte);
    }
}

// Whether two blocks of cells lie within them and are the same.
#[tactic(auto, using(crate::proofs::Blocks::pointwise_same))]
pub fn same_blocks(cells: &[u32], first: usize, second: usize, count: usize) -> bool
    ensures { result ≡ same_blocks first second count cells.now }
{
    both_lie(first, cells.len(), second, cells.len(), count)
        && cells[first..first + count] == cells[second..second + count]
}

// Whether a block of cells lies within them and is the same as the bytes.
#[tactic(auto, using(crate::proofs::Blocks::same_bytes_count))]
pub fn same_bytes(cells: &[u32], from: usize, count: usize, bytes: &[u8]) -> bool
    ensures { result ≡ same_bytes from count bytes.now cells.now }
{
    count == bytes.len()
        && lies_within(from, count, cells.len())
        && all_agree(&cells[from..from + count], bytes)
}

// Whether each cell is the byte at its place.
fn all_agree(cells: &[u32], bytes: &[u8]) -> bool
    requires { length cells.now ≡ length bytes.now }
    ensures { result ≡ same cells.now bytes.now }
{
    cells
        .iter()
        .zip(bytes)
        .all(|(cell, byte)| *cell == u32::from(*byte))
}

// So many cells from a position on, each of them this value.
#[tactic(auto, using(crate::proofs::Blocks::filled_part, crate::proofs::Blocks::replicate_repeated))]
pub fn fill(cells: &mut [u32], to: usize, count: usize, value: u32)
    ensures { cells.new ≡ filled to count value cells.old }
{
    if lies_within(to, count, cells.len()) {
        cells[to..to + count].fill(value);
    }
}

// All cells zero.
pub fn clear(cells: &mut [u32])
    ensures { cells.new ≡ repeated (length cells.old) 0 }
{
    let count = cells.len();
    fill(cells, 0, count, 0);
}
