// Bytes go to the argument being collected by the innermost open call, else to the output.
ghost use Rattle.std.specs.Prelude.{◌≡◌, List, ℕ, ◌≤◌, length};
ghost use Rattle.language.specs.Signs.{cells_limit};
ghost use Rattle.language.specs.Expansion.{lent};
ghost use Rattle.machine.specs.Machine.{Sound, leaves, write, collect, put, write_block, collect_block, copy};

use crate::run::{Run, Stepped};
use language::outcomes::Outcome;

impl Run {
    // One byte.
    pub(crate) fn put(self, byte: u8, cells: &mut [u32], output: &mut [u8]) -> Stepped
        requires { (self.calls.left ≤ cells_limit) × (self.charge ≤ cells_limit) × (self.counts.written ≤ length output.old) }
        ensures { leaves result (lent cells.new output.new) ≡ put self byte (lent cells.old output.old) }
    {
        if self.calls.call == Run::NOWHERE {
            return self.write(byte, output);
        }
        self.collect(byte, cells)
    }

    pub(crate) fn write(self, byte: u8, output: &mut [u8]) -> Stepped
        requires { self.counts.written ≤ length output.old }
        ensures { (l : List ℕ) → leaves result (lent l output.new) ≡ write self byte (lent l output.old) }
    {
        if self.counts.written >= output.len() {
            return self.ends_with(Outcome::NoOutputLeft);
        }
        memory::write_byte(output, self.counts.written, byte);
        self.wrote(1).goes_on()
    }

    fn collect(self, byte: u8, cells: &mut [u32]) -> Stepped
        requires { (self.calls.left ≤ cells_limit) × (self.charge ≤ cells_limit) }
        ensures { (o : List ℕ) → leaves result (lent cells.new o) ≡ collect self byte (lent cells.old o) }
    {
        if self.charge >= cells.len() {
            return self.ends_with(Outcome::NoCellsLeft);
        }
        memory::write(cells, self.calls.left, u32::from(byte));
        self.collected(1).goes_on()
    }

    // So many bytes that stand in cells from a position on, whole or not at all.
    pub(crate) fn copy(
        self,
        from: usize,
        count: usize,
        cells: &mut [u32],
        output: &mut [u8],
    ) -> Stepped
        requires { Sound (length cells.old) self × (self.counts.written ≤ length output.old) }
        ensures { leaves result (lent cells.new output.new) ≡ copy self from count (lent cells.old output.old) }
    {
        if self.calls.call == Run::NOWHERE {
            return self.write_block(from, count, cells, output);
        }
        self.collect_block(from, count, cells)
    }

    fn write_block(self, from: usize, count: usize, cells: &[u32], output: &mut [u8]) -> Stepped
        requires { self.counts.written ≤ length output.old }
        ensures { leaves result (lent cells.now output.new) ≡ write_block self from count (lent cells.now output.old) }
    {
        if output.len() - self.counts.written < count {
            return self.ends_with(Outcome::NoOutputLeft);
        }
        memory::copy_to_bytes(cells, from, output, self.counts.written, count);
        self.wrote(count).goes_on()
    }

    fn collect_block(self, from: usize, count: usize, cells: &mut [u32]) -> Stepped
        requires { Sound (length cells.old) self }
        ensures { (o : List ℕ) → leaves result (lent cells.new o) ≡ collect_block self from count (lent cells.old o) }
    {
        if cells.len() - self.charge < count {
            return self.ends_with(Outcome::NoCellsLeft);
        }
        memory::move_block(cells, from, self.calls.left, count);
        self.collected(count).goes_on()
    }
}
