// `;` applies the innermost open call.
ghost use Rattle.std.specs.Prelude.{◌≡◌, List, ℕ, ◌+◌, ◌≤◌, ◌<◌, length};
ghost use Rattle.language.specs.Signs.{cells_limit};
ghost use Rattle.language.specs.Expansion.{lent};
ghost use Rattle.machine.specs.Walks.{list_overhead};
ghost use Rattle.machine.specs.Machine.{Sound, Marked, leaves, leaves_indexed, body_begun, list_moved, read_body, apply_marked, apply_call, apply};

use crate::run::{Calls, Run, Source, Stepped};
use crate::{layout, lookup};
use language::outcomes::Outcome;

impl Run {
    // `;` in a body with no call begun in it is 10, in the text it is copied.
    pub(crate) fn apply(
        self,
        byte: u8,
        heads: &mut [u32; 64],
        cells: &mut [u32],
        output: &mut [u8],
    ) -> Stepped
        requires { Sound (length cells.old) self × (self.counts.written ≤ length output.old) }
        ensures { leaves_indexed result (lent cells.new output.new) heads.new ≡ apply self byte heads.old (lent cells.old output.old) }
    {
        if self.own_call(cells) {
            return self.apply_call(heads, cells, output);
        }
        if self.source.list == Run::NOWHERE {
            return self.put(byte, cells, output);
        }
        self.ends_with(Outcome::AppliesNothing)
    }

    // "4 for its own cell, 15, 13, then the built-in's, then 4, then 5."
    fn apply_call(self, heads: &mut [u32; 64], cells: &mut [u32], output: &mut [u8]) -> Stepped
        requires { Sound (length cells.old) self × (self.counts.written ≤ length output.old) }
        ensures { leaves_indexed result (lent cells.new output.new) heads.new ≡ apply_call self heads.old (lent cells.old output.old) }
    {
        if self.charge >= cells.len() {
            return self.ends_with(Outcome::NoCellsLeft);
        }
        if self.calls.left < self.calls.call + layout::OPEN_SIZE {
            return self.damaged();
        }
        self.end_argument(cells);
        memory::write(cells, self.calls.left, layout::MARK);
        self.charged(1).apply_marked(heads, cells, output)
    }

    // The call whose list is ended by its mark.
    fn apply_marked(self, heads: &mut [u32; 64], cells: &mut [u32], output: &mut [u8]) -> Stepped
        requires { (Marked (length cells.old) self) × (self.counts.written ≤ length output.old) }
        ensures { leaves_indexed result (lent cells.new output.new) heads.new ≡ apply_marked self heads.old (lent cells.old output.old) }
    {
        let name = self.calls.call + layout::ARGUMENTS;
        let Some(found) = lookup::newest(cells, heads, name) else {
            return self.apply_built_in(name, heads, cells, output);
        };
        self.read_body(found, cells)
    }

    // The list moves to the right stack, and the body of the definition is read.
    fn read_body(self, definition: usize, cells: &mut [u32]) -> Stepped
        requires { Marked (length cells.old) self }
        ensures { (o : List ℕ) → leaves result (lent cells.new o) ≡ read_body self definition (lent cells.old o) }
    {
        let call = self.calls.call;
        let size = self.calls.left - call + 1;
        let list = self.right - size;
        let around = layout::return_link(cells, call);
        self.move_list(list, size, cells);
        self.body_begun(definition, list, around).goes_on()
    }

    fn move_list(self, list: usize, size: usize, cells: &mut [u32])
        requires { (list ≤ cells_limit) × (list_overhead ≤ size) }
        ensures { cells.new ≡ list_moved self list size cells.old }
    {
        let links = layout::packed(size - layout::LIST_OVERHEAD, self.source.list);
        let reader = layout::packed(self.source.body, self.source.offset);
        memory::move_block(cells, self.calls.call, list, size);
        layout::write_links(cells, list, links, reader);
    }

    fn body_begun(mut self, definition: usize, list: usize, around: u32) -> Run
        ensures { result ≡ body_begun self definition list around }
    {
        self.calls = Calls {
            left: self.calls.call,
            call: layout::low(around),
            hand: layout::high(around),
        };
        self.source = Source {
            list,
            body: definition,
            offset: 0,
        };
        self.right = list;
        self
    }
}
