// `$`, `,`, `~` and an unquoted `>`, and the ends of a body and of the text.
ghost use Rattle.std.specs.Prelude.{◌≡◌, List, ℕ, ◌+◌, ◌≤◌, ◌<◌, length, Some, IfSome};
ghost use Rattle.language.specs.Signs.{cells_limit, parameter_number};
ghost use Rattle.language.specs.Expansion.{lent};
ghost use Rattle.machine.specs.Walks.{nowhere};
ghost use Rattle.machine.specs.Machine.{Sound, leaves, leaves_indexed, shifted, open_at, open_call, end_argument, end_by_comma, separate, body_byte, fetch_in_text, fetch_number, fetch_in_body, fetch, unquote, end_text, own_call, body_ended, end_body_to, end_body};

use crate::run::{Run, Source, Stepped};
use crate::{index, layout, lookup};
use language::outcomes::Outcome;

impl Run {
    // `$` opens a call with an empty name.
    pub(crate) fn open_call(self, cells: &mut [u32]) -> Stepped
        requires { Sound (length cells.old) self }
        ensures { (o : List ℕ) → leaves result (lent cells.new o) ≡ open_call self (lent cells.old o) }
    {
        if cells.len() - self.charge < layout::OPEN_SIZE {
            return self.ends_with(Outcome::NoCellsLeft);
        }
        let at = self.calls.left;
        self.open_at(at, cells);
        let mut run = self.collected(layout::OPEN_SIZE);
        run.calls.call = at;
        run.calls.hand = at + layout::ARGUMENTS;
        run.goes_on()
    }

    // The head of a call that is opened at a position.
    fn open_at(self, at: usize, cells: &mut [u32])
        requires { at ≤ cells_limit }
        ensures { cells.new ≡ open_at self at cells.old }
    {
        let list = layout::cell(self.source.list);
        let around = layout::packed(self.calls.hand, self.calls.call);
        layout::write_right_before(cells, at, layout::cell(self.right));
        layout::write_links(cells, at, list, around);
    }

    // The length of the argument in hand goes into its cell.
    pub(crate) fn end_argument(self, cells: &mut [u32])
        requires { self.calls.hand ≤ cells_limit }
        ensures { cells.new ≡ end_argument self cells.old }
    {
        let hand = self.calls.hand;
        let left = self.calls.left;
        if hand < left {
            memory::write(cells, hand, layout::cell(left - (hand + 1)));
        }
    }

    fn end_by_comma(self, cells: &mut [u32]) -> Stepped
        requires { Sound (length cells.old) self }
        ensures { (o : List ℕ) → leaves result (lent cells.new o) ≡ end_by_comma self (lent cells.old o) }
    {
        if self.charge >= cells.len() {
            return self.ends_with(Outcome::NoCellsLeft);
        }
        self.end_argument(cells);
        let mut run = self.collected(1);
        run.calls.hand = self.calls.left;
        run.goes_on()
    }

    // `,` ends the argument in hand; with no open call it is copied.
    pub(crate) fn separate(self, byte: u8, cells: &mut [u32], output: &mut [u8]) -> Stepped
        requires { Sound (length cells.old) self × (self.counts.written ≤ length output.old) }
        ensures { leaves result (lent cells.new output.new) ≡ separate self byte (lent cells.old output.old) }
    {
        if self.calls.call == Run::NOWHERE {
            return self.write(byte, output);
        }
        self.end_by_comma(cells)
    }

    // The next byte of the body being read; none at its end.
    pub(crate) fn body_byte(self, cells: &[u32]) -> Option<u8>
        requires { (self.source.body ≤ nowhere) × (self.source.offset ≤ 4294967296) }
        ensures byte { result ≡ body_byte self cells.now }
        ensures inside { IfSome result (λ b. self.source.offset < 4294967296) }
    {
        let body = self.source.body;
        let offset = self.source.offset;
        let length = layout::value_length(cells, body);
        if length <= offset {
            return None;
        }
        let letters = layout::name_length(cells, body);
        let byte = memory::read(cells, body + layout::HEAD_SIZE + letters + offset);
        Some((byte % 256) as u8)
    }

    // `~` in the text is copied where no call is open.
    fn fetch_in_text(self, byte: u8, output: &mut [u8]) -> Stepped
        requires { self.counts.written ≤ length output.old }
        ensures { (l : List ℕ) → leaves result (lent l output.new) ≡ fetch_in_text self byte (lent l output.old) }
    {
        if self.calls.call == Run::NOWHERE {
            return self.write(byte, output);
        }
        self.ends_with(Outcome::ParameterInText)
    }

    // The parameter with a number.
    fn fetch_number(mut self, number: usize, cells: &mut [u32], output: &mut [u8]) -> Stepped
        requires { (Sound (length cells.old) self) × (self.counts.written ≤ length output.old) × (self.source.offset < 4294967296) × (number ≤ nowhere) }
        ensures { leaves result (lent cells.new output.new) ≡ fetch_number self (Some number) (lent cells.old output.old) }
    {
        let from = self.source.list + layout::ARGUMENTS;
        let Some(position) = lookup::argument(cells, from, number) else {
            return self.ends_with(Outcome::NotSupplied);
        };
        let count = memory::read(cells, position) as usize;
        self.source.offset += 1;
        self.copy(position + 1, count, cells, output)
    }

    // `~` in a body, with its digit or letter.
    fn fetch_in_body(self, cells: &mut [u32], output: &mut [u8]) -> Stepped
        requires { Sound (length cells.old) self × (self.counts.written ≤ length output.old) }
        ensures { leaves result (lent cells.new output.new) ≡ fetch_in_body self (lent cells.old output.old) }
    {
        let Some(byte) = self.body_byte(cells) else {
            return self.ends_with(Outcome::FetchesNothing);
        };
        let Some(number) = parameter_number(byte) else {
            return self.ends_with(Outcome::FetchesNothing);
        };
        self.fetch_number(number, cells, output)
    }

    pub(crate) fn fetch(self, byte: u8, cells: &mut [u32], output: &mut [u8]) -> Stepped
        requires { Sound (length cells.old) self × (self.counts.written ≤ length output.old) }
        ensures { leaves result (lent cells.new output.new) ≡ fetch self byte (lent cells.old output.old) }
    {
        if self.source.list == Run::NOWHERE {
            return self.fetch_in_text(byte, output);
        }
        self.fetch_in_body(cells, output)
    }

    // An unquoted `>`: in a body, where none ever stands, it is copied.
    pub(crate) fn unquote(self, byte: u8, cells: &mut [u32], output: &mut [u8]) -> Stepped
        requires { Sound (length cells.old) self × (self.counts.written ≤ length output.old) }
        ensures { leaves result (lent cells.new output.new) ≡ unquote self byte (lent cells.old output.old) }
    {
        if self.source.list != Run::NOWHERE {
            return self.put(byte, cells, output);
        }
        if self.calls.call == Run::NOWHERE {
            return self.ends_with(Outcome::FinishedAtQuote);
        }
        self.ends_with(Outcome::QuoteInCall)
    }

    pub(crate) fn end_text(self) -> Stepped
        ensures { (l o : List ℕ) → leaves result (lent l o) ≡ end_text self (lent l o) }
    {
        if self.quotes > 0 {
            return self.ends_with(Outcome::TextInQuotes);
        }
        if self.calls.call == Run::NOWHERE {
            return self.ends_with(Outcome::Finished);
        }
        self.ends_with(Outcome::TextInCall)
    }

    // Whether the innermost open call was begun in the body, or in the text, being read.
    pub(crate) fn own_call(self, cells: &[u32]) -> bool
        requires { self.calls.call ≤ nowhere }
        ensures { result ≡ own_call self cells.now }
    {
        let call = self.calls.call;
        if call == Run::NOWHERE {
            return false;
        }
        let list = layout::list_link(cells, call) as usize;
        list == self.source.list
    }

    // The end of a body ends its call.
    pub(crate) fn end_body(self, heads: &mut [u32; 64], cells: &mut [u32]) -> Stepped
        requires { Sound (length cells.old) self }
        ensures { (o : List ℕ) → leaves_indexed result (lent cells.new o) heads.new ≡ end_body self heads.old (lent cells.old o) }
    {
        if self.own_call(cells) {
            return self.ends_with(Outcome::BodyInCall);
        }
        let list = self.source.list;
        let to = layout::right_before(cells, list);
        let links = layout::list_link(cells, list);
        let reader = layout::return_link(cells, list);
        let behind = list + layout::high(links) + layout::LIST_OVERHEAD;
        let gone = lookup::definitions(cells, behind, to);
        self.end_body_to(to, links, reader, gone, heads, cells)
    }

    // The list goes, with the definitions made while it was collected, which stand from its end up to `to`; those made in the
    // body move up there.
    fn end_body_to(
        self,
        to: usize,
        links: u32,
        reader: u32,
        gone: usize,
        heads: &mut [u32; 64],
        cells: &mut [u32],
    ) -> Stepped
        requires { Sound (length cells.old) self }
        ensures { (o : List ℕ) → leaves_indexed result (lent cells.new o) heads.new ≡ end_body_to self to links reader gone heads.old (lent cells.old o) }
    {
        let list = self.source.list;
        let right = self.right;
        if to < list {
            return self.damaged();
        }
        if to > cells.len() {
            return self.damaged();
        }
        if list < right {
            return self.damaged();
        }
        if self.counts.live < gone {
            return self.damaged();
        }
        let behind = list + layout::high(links) + layout::LIST_OVERHEAD;
        shift(right, list, behind, to, heads, cells);
        self.body_ended(to, links, reader, gone).goes_on()
    }

    // The charge is lowered by the list, and by the definitions made while it was collected.
    fn body_ended(mut self, to: usize, links: u32, reader: u32, gone: usize) -> Run
        requires { (self.source.list ≤ to) × (self.right + to ≤ 4294967296) × (to ≤ self.source.list + self.charge) × (gone ≤ self.counts.live) }
        ensures { result ≡ body_ended self to links reader gone }
    {
        let went = to - self.source.list;
        self.source = Source {
            list: layout::low(links),
            body: layout::high(reader),
            offset: layout::low(reader),
        };
        self.counts.live -= gone;
        self.right += went;
        self.quotes = 0;
        self.charge -= went;
        self
    }
}

// The definitions before a list move up to `to`; those behind it go. All leave the index, and those that moved come back into it:
// it costs what goes and what moves, whatever else stands.
fn shift(
    right: usize,
    list: usize,
    behind: usize,
    to: usize,
    heads: &mut [u32; 64],
    cells: &mut [u32],
)
    requires { (length cells.old ≤ cells_limit) × (right ≤ list) × (list ≤ to) × (to ≤ length cells.old) × (behind ≤ 4294967296) }
    ensures { record { cells = cells.new; heads = heads.new } ≡ shifted right list behind to cells.old heads.old }
{
    let by = to - list;
    index::remove(heads, cells, right, list);
    index::remove(heads, cells, behind, to);
    memory::move_block(cells, right, right + by, list - right);
    index::relink(heads, cells, right + by, to, list, by);
    index::restore(heads, cells, right + by, to);
}

// The parameter that the byte after `~` stands for: 0 to 9 for a digit, 10 to 35 for a letter `a` to `z`. Comparisons in a row
// keep the compiled scan short.
fn parameter_number(byte: u8) -> Option<usize>
    ensures number { result ≡ parameter_number byte }
    ensures below { IfSome result (λ k. k ≤ nowhere) }
{
    if byte < b'0' {
        return None;
    }
    if byte <= b'9' {
        return Some(usize::from(byte - b'0'));
    }
    if byte < b'a' {
        return None;
    }
    if byte > b'z' {
        return None;
    }
    Some(usize::from(byte - b'a') + 10)
}
