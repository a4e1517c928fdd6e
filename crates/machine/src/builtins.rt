// The built-ins, within the scan of their `;`, which is charged.
ghost use Rattle.std.specs.Prelude.{◌≡◌, List, ℕ, ◌+◌, ◌≤◌, ◌<◌, length};
ghost use Rattle.language.specs.Signs.{cells_limit};
ghost use Rattle.language.specs.Expansion.{lent};
ghost use Rattle.machine.specs.Machine.{Marked, Resulting, leaves, leaves_indexed, unindexed, release, release_to, released, defined, define_in, def, refuse_name, val, update_in, update, choose, lock, perform, supplied, apply_built_in};

use crate::run::{Answer, Calls, Run, Stepped};
use crate::{index, layout, lookup, operands};
use language::Sizes;
use language::built_ins::BuiltIn;
use language::outcomes::Outcome;

impl Run {
    // 15 for a name that is none of theirs.
    pub(crate) fn apply_built_in(
        self,
        name: usize,
        heads: &mut [u32; 64],
        cells: &mut [u32],
        output: &mut [u8],
    ) -> Stepped
        requires { (Marked (length cells.old) self) × (self.counts.written ≤ length output.old) × (name ≤ cells_limit + 4) }
        ensures { leaves_indexed result (lent cells.new output.new) heads.new ≡ apply_built_in self name heads.old (lent cells.old output.old) }
    {
        match operands::built_in(cells, name) {
            Some(built_in) => self.supplied(built_in, name, heads, cells, output),
            None => self.ends_with(Outcome::NotDefined),
        }
    }

    // 13 for a parameter that was not supplied.
    fn supplied(
        self,
        built_in: BuiltIn,
        name: usize,
        heads: &mut [u32; 64],
        cells: &mut [u32],
        output: &mut [u8],
    ) -> Stepped
        requires { (Marked (length cells.old) self) × (self.counts.written ≤ length output.old) × (name ≤ cells_limit + 4) }
        ensures { leaves_indexed result (lent cells.new output.new) heads.new ≡ supplied self built_in name heads.old (lent cells.old output.old) }
    {
        let Some(last) = lookup::argument(cells, name, built_in.needs()) else {
            return self.ends_with(Outcome::NotSupplied);
        };
        self.perform(built_in, name, last, heads, cells, output)
    }

    // The first parameter stands behind the name, the last that is needed at `last`.
    fn perform(
        self,
        built_in: BuiltIn,
        name: usize,
        last: usize,
        heads: &mut [u32; 64],
        cells: &mut [u32],
        output: &mut [u8],
    ) -> Stepped
        requires { (Marked (length cells.old) self) × (self.counts.written ≤ length output.old) × (name ≤ cells_limit + 4) × (last ≤ 8589934592) }
        ensures { leaves_indexed result (lent cells.new output.new) heads.new ≡ perform self built_in name last heads.old (lent cells.old output.old) }
    {
        let first = lookup::behind(cells, name);
        let st = match built_in {
            BuiltIn::Def => return self.def(first, last, heads, cells),
            BuiltIn::Val => self.val(last, heads, cells, output),
            BuiltIn::Update => self.update(first, last, heads, cells),
            BuiltIn::Arithmetic(operation) => {
                let answer = operands::calculate(operation, cells, first, last);
                self.give_answer(answer, cells, output)
            }
            BuiltIn::Seq => self.give_count(operands::compare(cells, first, last), cells, output),
            BuiltIn::Size => self.give_count(memory::read(cells, last), cells, output),
            BuiltIn::If => self.choose(name, cells, output),
            BuiltIn::Lock => self.lock(last, heads, cells),
        };
        self.unindex(st, heads, cells);
        st
    }

    // Where the call has ended, what was defined since its `$` is taken out of the index.
    fn unindex(self, st: Stepped, heads: &mut [u32; 64], cells: &[u32])
        requires { (length cells.now ≤ cells_limit) × (self.right ≤ cells_limit) × (st.run.right ≤ cells_limit) }
        ensures { (o : List ℕ) → leaves_indexed st (lent cells.now o) heads.new ≡ unindexed self heads.old (leaves st (lent cells.now o)) }
    {
        let Answer::GoesOn = st.answer else {
            return;
        };
        index::remove(heads, cells, self.right, st.run.right);
    }

    // The call ends: its list goes, with what was defined since its `$`; `kept` cells stand in place of the list.
    pub(crate) fn release(self, kept: usize, cells: &[u32]) -> Stepped
        requires { Resulting (length cells.now) kept self }
        ensures { (o : List ℕ) → leaves result (lent cells.now o) ≡ release self kept (lent cells.now o) }
    {
        let call = self.calls.call;
        let to = layout::right_before(cells, call);
        let around = layout::return_link(cells, call);
        let gone = lookup::definitions(cells, self.right, to);
        self.release_to(kept, to, around, gone, cells.len())
    }

    fn release_to(self, kept: usize, to: usize, around: u32, gone: usize, len: usize) -> Stepped
        requires { Resulting len kept self }
        ensures { (l o : List ℕ) → length l ≡ len → leaves result (lent l o) ≡ release_to self kept to around gone (lent l o) }
    {
        if to < self.right {
            return self.damaged();
        }
        if to > len {
            return self.damaged();
        }
        if self.counts.live < gone {
            return self.damaged();
        }
        self.released(kept, to, around, gone).goes_on()
    }

    // The charge is lowered by the list with its `;`, and by the definitions made since its `$`.
    fn released(mut self, kept: usize, to: usize, around: u32, gone: usize) -> Run
        requires { (self.calls.call ≤ self.calls.left) × (self.calls.left ≤ cells_limit) × (self.right ≤ to) × (to ≤ cells_limit) × (self.calls.left + 1 + to ≤ self.charge + self.calls.call + self.right) × (kept ≤ cells_limit) × (gone ≤ self.counts.live) }
        ensures { result ≡ released self kept to around gone }
    {
        let list = self.calls.left - self.calls.call + 1;
        let since = to - self.right;
        let left = self.calls.call + kept;
        self.calls = Calls {
            left,
            call: layout::low(around),
            hand: layout::high(around),
        };
        self.counts.live -= gone;
        self.right = to;
        self.charge -= list + since;
        self
    }

    // DEF: 33 for an empty name, "before anything is defined"; else the list is exchanged for the definition.
    fn def(self, name: usize, value: usize, heads: &mut [u32; 64], cells: &mut [u32]) -> Stepped
        requires { (Marked (length cells.old) self) × (name ≤ 8589934592) × (value ≤ 8589934592) }
        ensures { (o : List ℕ) → leaves_indexed result (lent cells.new o) heads.new ≡ def self name value heads.old (lent cells.old o) }
    {
        let letters = memory::read(cells, name) as usize;
        if letters == 0 {
            return self.ends_with(Outcome::EmptyName);
        }
        let bytes = memory::read(cells, value) as usize;
        let st = self.release(0, cells);
        self.unindex(st, heads, cells);
        let Answer::GoesOn = st.answer else {
            return st;
        };
        let run = st.run;
        run.define_in(name, value, letters, bytes, heads, cells)
    }

    // The value, then the name, to the cells before `right`, and the head before them; then it comes into the index.
    fn define_in(
        self,
        name: usize,
        value: usize,
        letters: usize,
        bytes: usize,
        heads: &mut [u32; 64],
        cells: &mut [u32],
    ) -> Stepped
        requires { (length cells.old ≤ cells_limit) × (name ≤ 8589934592) × (value ≤ 8589934592) × (letters ≤ 4294967296) × (bytes ≤ 4294967296) × (self.calls.left ≤ 4294967296) × (self.right ≤ cells_limit) × (self.charge ≤ 4294967296) }
        ensures { (o : List ℕ) → leaves_indexed result (lent cells.new o) heads.new ≡ define_in self name value letters bytes heads.old (lent cells.old o) }
    {
        let size = layout::HEAD_SIZE + letters + bytes;
        let right = self.right;
        if right < size + self.calls.left {
            return self.damaged();
        }
        if self.counts.live >= Sizes::CELLS_LIMIT {
            return self.damaged();
        }
        memory::move_block(cells, value + 1, right - bytes, bytes);
        memory::move_block(cells, name + 1, right - (letters + bytes), letters);
        layout::write_head(cells, right - size, letters, bytes);
        index::insert(heads, cells, right - size);
        self.defined(size).goes_on()
    }

    fn defined(mut self, size: usize) -> Run
        requires { (size ≤ self.right) × (self.charge + size < 18446744073709551616) × (self.counts.live < cells_limit) }
        ensures { result ≡ defined self size }
    {
        self.counts.live += 1;
        self.right -= size;
        self.charge += size;
        self
    }

    // VAL gives the value unscanned.
    fn val(self, name: usize, heads: &[u32; 64], cells: &mut [u32], output: &mut [u8]) -> Stepped
        requires { (Marked (length cells.old) self) × (self.counts.written ≤ length output.old) × (name ≤ 8589934592) }
        ensures { leaves result (lent cells.new output.new) ≡ val self name heads.now (lent cells.old output.old) }
    {
        let Some(found) = lookup::newest(cells, heads, name) else {
            return self.refuse_name(name, cells);
        };
        let count = layout::value_length(cells, found);
        let letters = layout::name_length(cells, found);
        self.give_block(found + layout::HEAD_SIZE + letters, count, cells, output)
    }

    // "15, 19": a name that no definition has.
    fn refuse_name(self, name: usize, cells: &[u32]) -> Stepped
        requires { (length cells.now ≤ cells_limit) × (name ≤ 8589934592) }
        ensures { (o : List ℕ) → leaves result (lent cells.now o) ≡ refuse_name self name (lent cells.now o) }
    {
        match operands::built_in(cells, name) {
            Some(_) => self.ends_with(Outcome::BuiltIn),
            None => self.ends_with(Outcome::NotDefined),
        }
    }

    // UPDATE changes the value where the definition stands: "15 for the name given, 19", 36 if it is locked, "20, 21".
    fn update(self, name: usize, value: usize, heads: &[u32; 64], cells: &mut [u32]) -> Stepped
        requires { (Marked (length cells.old) self) × (name ≤ 8589934592) × (value ≤ 8589934592) }
        ensures { (o : List ℕ) → leaves result (lent cells.new o) ≡ update self name value heads.now (lent cells.old o) }
    {
        let Some(found) = lookup::newest(cells, heads, name) else {
            return self.refuse_name(name, cells);
        };
        if layout::is_locked(cells, found) {
            return self.ends_with(Outcome::Locked);
        }
        if lookup::is_read(cells, self.source.list, self.source.body, found) {
            return self.ends_with(Outcome::BodyBeingRead);
        }
        self.update_in(value, found, cells)
    }

    fn update_in(self, value: usize, found: usize, cells: &mut [u32]) -> Stepped
        requires { (Marked (length cells.old) self) × (value ≤ 8589934592) × (found ≤ 8589934592) }
        ensures { (o : List ℕ) → leaves result (lent cells.new o) ≡ update_in self value found (lent cells.old o) }
    {
        let count = memory::read(cells, value);
        if layout::room(cells, found) < count as usize {
            return self.ends_with(Outcome::UpdateTooLong);
        }
        let letters = layout::name_length(cells, found);
        let st = self.release(0, cells);
        let to = found + layout::HEAD_SIZE + letters;
        memory::move_block(cells, value + 1, to, count as usize);
        layout::write_value_length(cells, found, count);
        st
    }

    // IF gives a parameter, which lies in the list that goes; or nothing, a result of no bytes.
    fn choose(self, name: usize, cells: &mut [u32], output: &mut [u8]) -> Stepped
        requires { (Marked (length cells.old) self) × (self.counts.written ≤ length output.old) × (name ≤ cells_limit + 4) }
        ensures { leaves result (lent cells.new output.new) ≡ choose self name (lent cells.old output.old) }
    {
        let Some(second) = lookup::chosen(cells, name) else {
            return self.give_block(name, 0, cells, output);
        };
        let count = memory::read(cells, second) as usize;
        self.give_block(second + 1, count, cells, output)
    }

    // LOCK locks the newest definition of the name where it stands.
    fn lock(self, name: usize, heads: &[u32; 64], cells: &mut [u32]) -> Stepped
        requires { (Marked (length cells.old) self) × (name ≤ 8589934592) }
        ensures { (o : List ℕ) → leaves result (lent cells.new o) ≡ lock self name heads.now (lent cells.old o) }
    {
        let Some(found) = lookup::newest(cells, heads, name) else {
            return self.refuse_name(name, cells);
        };
        let st = self.release(0, cells);
        layout::write_lock(cells, found);
        st
    }
}
