// Where each byte of the output came from: the rule of the next scan, and the numbers of what it wrote.
ghost use Rattle.std.specs.Prelude.{◌≡◌, ◌≤◌};
ghost use Rattle.language.specs.Origins.{numbers};
ghost use Rattle.machine.specs.Walks.{nowhere};
ghost use Rattle.machine.specs.Origins.{fetches_next, given_by_name, rule, note_unless};

use crate::run::Run;
use crate::{layout, lookup, scan};
use language::rules::Rule;
use language::signs::Sign;

impl Run {
    // The rule by which the next scan writes, if it does: while a call is open only a built-in gives to the output.
    pub(crate) fn rule(self, kinds: &[u8; 256], cells: &[u32]) -> Rule
        requires { (self.calls.call ≤ nowhere) × (self.source.body ≤ nowhere) × (self.source.offset ≤ 4294967296) }
        ensures { result ≡ rule self kinds.now cells.now }
    {
        if self.calls.call != Run::NOWHERE {
            return given_by_name(cells, self.calls.call + layout::ARGUMENTS);
        }
        if self.source.list == Run::NOWHERE {
            return Rule::CopiedFromText;
        }
        if self.fetches_next(kinds, cells) {
            Rule::Fetched
        } else {
            Rule::CopiedFromBody
        }
    }

    // Whether the next byte of the body being read is an unquoted `~`.
    fn fetches_next(self, kinds: &[u8; 256], cells: &[u32]) -> bool
        requires { (self.source.body ≤ nowhere) × (self.source.offset ≤ 4294967296) }
        ensures { result ≡ fetches_next self kinds.now cells.now }
    {
        if self.quotes > 0 {
            return false;
        }
        let Some(byte) = self.body_byte(cells) else {
            return false;
        };
        scan::sign_of(kinds, byte) == Sign::Tilde
    }

    // What was written since this standing came by this rule.
    pub(crate) fn note(
        self,
        silent: bool,
        after: Run,
        rule: Rule,
        origins: &mut [u32],
        rules: &mut [u32],
    )
        ensures { numbers origins.new rules.new ≡ note_unless silent self after rule (numbers origins.old rules.old) }
    {
        let from = self.counts.written;
        let end = after.counts.written;
        if silent {
            return;
        }
        if end > from {
            let count = end - from;
            memory::fill(origins, from, count, layout::cell(after.counts.read));
            memory::fill(rules, from, count, u32::from(rule));
        }
    }
}

// VAL, or another built-in, by the name at a length cell.
fn given_by_name(cells: &[u32], name: usize) -> Rule
    requires { name ≤ 8589934592 }
    ensures { result ≡ given_by_name cells.now name }
{
    if lookup::is_text(cells, name, b"VAL") {
        Rule::GivenByVal
    } else {
        Rule::GivenByBuiltIn
    }
}
