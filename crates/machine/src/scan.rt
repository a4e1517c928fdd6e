// One scan.
ghost use Rattle.std.specs.Prelude.{◌≡◌, ℕ, ◌+◌, ◌≤◌, ◌<◌, length, List};
ghost use Rattle.language.specs.Signs.{sign_of};
ghost use Rattle.language.specs.Expansion.{lent};
ghost use Rattle.machine.specs.declared.run.Answer.TheVariants.{GoesOn};
ghost use Rattle.machine.specs.Walks.{nowhere};
ghost use Rattle.machine.specs.Machine.{Sound, Ready, last_scan, leaves, leaves_indexed, with_quotes, quotes_after, scan_quoted, scan_sign, scan_byte, next_byte, passed, end_source, step};

use crate::run::{Run, Stepped};
use language::signs::Sign;

impl Run {
    // One scan takes the standing of the run and gives the next.
    pub(crate) fn step(
        mut self,
        kinds: &[u8; 256],
        text: &[u8],
        heads: &mut [u32; 64],
        cells: &mut [u32],
        output: &mut [u8],
    ) -> Stepped
        requires { (Ready (length cells.old) self) × (self.counts.scans < last_scan) × (self.counts.written ≤ length output.old) }
        ensures { leaves_indexed result (lent cells.new output.new) heads.new ≡ step self kinds.now text.now heads.old (lent cells.old output.old) }
    {
        self.counts.scans += 1;
        let Some(byte) = self.next_byte(text, cells) else {
            return self.end_source(heads, cells);
        };
        self.passed()
            .scan_byte(sign_of(kinds, byte), byte, heads, cells, output)
    }

    // The next byte of the innermost body, else of the text; none at its end.
    fn next_byte(self, text: &[u8], cells: &[u32]) -> Option<u8>
        requires { (self.source.body ≤ nowhere) × (self.source.offset ≤ 4294967296) }
        ensures { result ≡ next_byte self text.now cells.now }
    {
        if self.source.list != Run::NOWHERE {
            return self.body_byte(cells);
        }
        text.get(self.counts.read).copied()
    }

    // The standing behind that byte.
    fn passed(mut self) -> Run
        requires { (self.source.list ≡ nowhere → self.counts.read < 18446744073709551615) × (self.source.offset ≤ 4294967296) }
        ensures { result ≡ passed self }
    {
        if self.source.list == Run::NOWHERE {
            self.counts.read += 1;
        } else {
            self.source.offset += 1;
        }
        self
    }

    // The end of the innermost body, else of the text.
    fn end_source(self, heads: &mut [u32; 64], cells: &mut [u32]) -> Stepped
        requires { Sound (length cells.old) self }
        ensures { (o : List ℕ) → leaves_indexed result (lent cells.new o) heads.new ≡ end_source self heads.old (lent cells.old o) }
    {
        if self.source.list == Run::NOWHERE {
            return self.end_text();
        }
        self.end_body(heads, cells)
    }

    // Inside quotes only quotes are recognised.
    fn scan_byte(
        self,
        sign: Sign,
        byte: u8,
        heads: &mut [u32; 64],
        cells: &mut [u32],
        output: &mut [u8],
    ) -> Stepped
        requires { (Sound (length cells.old) self) × (self.counts.written ≤ length output.old) }
        ensures { leaves_indexed result (lent cells.new output.new) heads.new ≡ scan_byte self sign byte heads.old (lent cells.old output.old) }
    {
        if self.quotes > 0 {
            return self.scan_quoted(sign, byte, cells, output);
        }
        self.scan_sign(sign, byte, heads, cells, output)
    }

    fn scan_sign(
        self,
        sign: Sign,
        byte: u8,
        heads: &mut [u32; 64],
        cells: &mut [u32],
        output: &mut [u8],
    ) -> Stepped
        requires { (Sound (length cells.old) self) × (self.counts.written ≤ length output.old) }
        ensures { leaves_indexed result (lent cells.new output.new) heads.new ≡ scan_sign self sign byte heads.old (lent cells.old output.old) }
    {
        match sign {
            Sign::Plain => self.put(byte, cells, output),
            Sign::Dollar => self.open_call(cells),
            Sign::Comma => self.separate(byte, cells, output),
            Sign::Semicolon => self.apply(byte, heads, cells, output),
            Sign::Tilde => self.fetch(byte, cells, output),
            Sign::Quote => self.quoted(1),
            Sign::Unquote => self.unquote(byte, cells, output),
        }
    }

    // The outermost pair is dropped, inner ones are copied.
    fn scan_quoted(mut self, sign: Sign, byte: u8, cells: &mut [u32], output: &mut [u8]) -> Stepped
        requires { (Sound (length cells.old) self) × (self.counts.written ≤ length output.old) × (0 < self.quotes) }
        ensures { leaves result (lent cells.new output.new) ≡ scan_quoted self sign byte (lent cells.old output.old) }
    {
        let depth = quotes_after(self.quotes, sign);
        if depth == 0 {
            return self.quoted(0);
        }
        self.quotes = depth;
        self.put(byte, cells, output)
    }

    fn quoted(mut self, depth: usize) -> Stepped
        ensures { result ≡ record { run = with_quotes depth self; answer = GoesOn } }
    {
        self.quotes = depth;
        self.goes_on()
    }
}

// The depth of quotes after a byte inside quotes.
fn quotes_after(quotes: usize, sign: Sign) -> usize
    requires { (0 < quotes) × (quotes < 18446744073709551615) }
    ensures { result ≡ quotes_after quotes sign }
{
    match sign {
        Sign::Quote => quotes + 1,
        Sign::Unquote => quotes - 1,
        _ => quotes,
    }
}

pub(crate) fn sign_of(kinds: &[u8; 256], byte: u8) -> Sign
    ensures { result ≡ sign_of kinds.now byte }
{
    Sign::from(kinds[usize::from(byte)])
}
