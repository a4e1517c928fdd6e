// A result: in place of its call's list, or behind the output.
ghost use Rattle.std.specs.Prelude.{◌≡◌, List, ℕ, ◌≤◌, length};
ghost use Rattle.language.specs.Expansion.{lent};
ghost use Rattle.machine.specs.Walks.{nowhere};
ghost use Rattle.machine.specs.Machine.{Marked, leaves, is_outer, give_in, give_out, give, place_block, place_text, give_block, give_decimal, give_count, give_answer};

use crate::layout;
use crate::run::{Answer, Run, Stepped};
use decimal::operations::Refusal;
use decimal::shortest::Decimal;
use language::outcomes::Outcome;

impl Run {
    // The result of the arithmetic, or its refusal.
    pub(crate) fn give_answer(
        self,
        answer: Result<Decimal, Refusal>,
        cells: &mut [u32],
        output: &mut [u8],
    ) -> Stepped
        requires { (Marked (length cells.old) self) × (self.counts.written ≤ length output.old) }
        ensures { leaves result (lent cells.new output.new) ≡ give_answer self answer (lent cells.old output.old) }
    {
        match answer {
            Ok(decimal) => self.give_decimal(&decimal, cells, output),
            Err(refusal) => self.ends_with(Outcome::from(refusal)),
        }
    }

    // A count, in decimal.
    pub(crate) fn give_count(self, count: u32, cells: &mut [u32], output: &mut [u8]) -> Stepped
        requires { (Marked (length cells.old) self) × (self.counts.written ≤ length output.old) }
        ensures { leaves result (lent cells.new output.new) ≡ give_count self count (lent cells.old output.old) }
    {
        self.give_decimal(&Decimal::from(count), cells, output)
    }

    // A result that is a decimal.
    fn give_decimal(self, text: &Decimal, cells: &mut [u32], output: &mut [u8]) -> Stepped
        requires { (Marked (length cells.old) self) × (self.counts.written ≤ length output.old) }
        ensures { leaves result (lent cells.new output.new) ≡ give_decimal self text.now (lent cells.old output.old) }
    {
        let bytes = text.as_bytes();
        let st = self.give(bytes.len(), cells, output.len());
        let Answer::GoesOn = st.answer else {
            return st;
        };
        self.place_text(bytes, cells, output);
        st
    }

    fn place_text(self, text: &[u8], cells: &mut [u32], output: &mut [u8])
        requires { self.calls.call ≤ nowhere }
        ensures { lent cells.new output.new ≡ place_text self text.now (lent cells.old output.old) }
    {
        if self.is_outer(cells) {
            memory::copy_bytes(text, output, self.counts.written, text.len());
        } else {
            memory::copy_from_bytes(text, cells, self.calls.call, text.len());
        }
    }

    // A result that stands in cells.
    pub(crate) fn give_block(
        self,
        from: usize,
        count: usize,
        cells: &mut [u32],
        output: &mut [u8],
    ) -> Stepped
        requires { (Marked (length cells.old) self) × (self.counts.written ≤ length output.old) }
        ensures { leaves result (lent cells.new output.new) ≡ give_block self from count (lent cells.old output.old) }
    {
        let st = self.give(count, cells, output.len());
        let Answer::GoesOn = st.answer else {
            return st;
        };
        self.place_block(from, count, cells, output);
        st
    }

    fn place_block(self, from: usize, count: usize, cells: &mut [u32], output: &mut [u8])
        requires { self.calls.call ≤ nowhere }
        ensures { lent cells.new output.new ≡ place_block self from count (lent cells.old output.old) }
    {
        if self.is_outer(cells) {
            memory::copy_to_bytes(cells, from, output, self.counts.written, count);
        } else {
            memory::move_block(cells, from, self.calls.call, count);
        }
    }

    // The call ends with a result of so many bytes, which is charged, or counted as written. "then 4, then 5"
    fn give(self, count: usize, cells: &[u32], output: usize) -> Stepped
        requires { (Marked (length cells.now) self) × (self.counts.written ≤ output) }
        ensures { (o : List ℕ) → length o ≡ output → leaves result (lent cells.now o) ≡ give self count (lent cells.now o) }
    {
        if self.is_outer(cells) {
            return self.give_out(count, cells, output);
        }
        self.give_in(count, cells)
    }

    fn give_out(self, count: usize, cells: &[u32], output: usize) -> Stepped
        requires { (Marked (length cells.now) self) × (self.counts.written ≤ output) }
        ensures { (o : List ℕ) → length o ≡ output → leaves result (lent cells.now o) ≡ give_out self count (lent cells.now o) }
    {
        if output - self.counts.written < count {
            return self.ends_with(Outcome::NoOutputLeft);
        }
        self.wrote(count).release(0, cells)
    }

    fn give_in(self, count: usize, cells: &[u32]) -> Stepped
        requires { Marked (length cells.now) self }
        ensures { (o : List ℕ) → leaves result (lent cells.now o) ≡ give_in self count (lent cells.now o) }
    {
        if cells.len() - self.charge < count {
            return self.ends_with(Outcome::NoCellsLeft);
        }
        self.charged(count).release(count, cells)
    }

    // Whether no call stands around the one that is applied.
    fn is_outer(self, cells: &[u32]) -> bool
        requires { self.calls.call ≤ nowhere }
        ensures { result ≡ is_outer self cells.now }
    {
        layout::low(layout::return_link(cells, self.calls.call)) == Run::NOWHERE
    }
}
