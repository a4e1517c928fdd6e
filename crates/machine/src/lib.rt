// Strachey's macrogenerator in lent cells: the standing of a run, and the one call that makes scans.
#![tactic(auto)]

mod apply;
mod builtins;
mod give;
pub mod index;
mod layout;
mod lookup;
mod operands;
mod origins;
mod put;
pub mod run;
mod scan;
mod signs;

ghost use Rattle.std.specs.Prelude.{◌≡◌, true, ◌+◌, ◌≤◌, length};
ghost use Rattle.language.specs.Expansion.{lent};
ghost use Rattle.language.specs.Origins.{numbers, too_short};
ghost use Rattle.machine.specs.declared.run.Answer.TheVariants.{GoesOn};
ghost use Rattle.machine.specs.Machine.{InRange, last_scan, leaves_indexed, keeping, goes, steps};
ghost use Rattle.machine.specs.Moving.{portion, Advances, Moves};
ghost use Rattle.machine.specs.Origins.{Noted, Notes, at_once};

use language::rules;
use run::{Answer, Run, Stepped};

// At most so many scans from a standing, in the memory that holds it and with the heads of the index. A standing that cannot be is
// refused untouched. Where both runs of numbers are as long as the output, they hold of each byte written where it came from.
pub fn go_on(
    run: Run,
    kinds: &[u8; 256],
    text: &[u8],
    heads: &mut [u32; 64],
    cells: &mut [u32],
    output: &mut [u8],
    origins: &mut [u32],
    rules: &mut [u32],
    allowance: u64,
) -> Stepped
    ensures { Moves kinds.now text.now allowance run heads.old (lent cells.old output.old) result heads.new (lent cells.new output.new) × Notes kinds.now text.now allowance run heads.old (lent cells.old output.old) (numbers origins.old rules.old) (numbers origins.new rules.new) }
{
    if run.is_in_range(cells.len(), output.len()) {
        let due = portion(allowance, run.counts.scans);
        return advance_noting(run, due, kinds, text, heads, cells, output, origins, rules);
    }
    Stepped {
        run,
        answer: Answer::Refused,
    }
}

// No scan is made past the largest count.
fn portion(allowance: u64, made: u64) -> u64
    ensures { (result ≡ portion allowance made) × (made + result ≤ last_scan) }
{
    allowance.min(u64::MAX - made)
}

// All scans at once, or one by one where each is to be noted. The inner loop has one caller, so that the compiler puts a scan
// into it, and where nothing is noted a scan costs nothing more.
fn advance_noting(
    from: Run,
    due: u64,
    kinds: &[u8; 256],
    text: &[u8],
    heads: &mut [u32; 64],
    cells: &mut [u32],
    output: &mut [u8],
    origins: &mut [u32],
    rules: &mut [u32],
) -> Stepped
    requires { (InRange (length cells.old) (length output.old) from) × (from.counts.scans + due ≤ last_scan) }
    ensures { Advances kinds.now text.now due from heads.old (lent cells.old output.old) result heads.new (lent cells.new output.new) × Noted kinds.now text.now due from heads.old (lent cells.old output.old) (numbers origins.old rules.old) (numbers origins.new rules.new) × (too_short (numbers origins.old rules.old) (length output.old) ≡ true → numbers origins.new rules.new ≡ numbers origins.old rules.old) }
{
    let until = from.counts.scans + due;
    let silent = rules::too_short(origins, rules, output);
    let mut run = from;
    while run.counts.scans < until {
        let rule = run.rule(kinds, cells);
        let at_once = at_once(silent, until - run.counts.scans);
        let st = advance(run, at_once, kinds, text, heads, cells, output);
        let Answer::GoesOn = st.answer else {
            return st;
        };
        run.note(silent, st.run, rule, origins, rules);
        run = st.run;
    }
    run.goes_on()
}

// How many of the scans that are left are made before the next look at the numbers.
fn at_once(silent: bool, left: u64) -> u64
    ensures { result ≡ at_once silent left }
{
    if silent { left } else { 1 }
}

// Scan after scan, until so many are made or the run ends.
fn advance(
    from: Run,
    due: u64,
    kinds: &[u8; 256],
    text: &[u8],
    heads: &mut [u32; 64],
    cells: &mut [u32],
    output: &mut [u8],
) -> Stepped
    requires { (InRange (length cells.old) (length output.old) from) × (from.counts.scans + due ≤ last_scan) }
    ensures { Advances kinds.now text.now due from heads.old (lent cells.old output.old) result heads.new (lent cells.new output.new) × (leaves_indexed result (lent cells.new output.new) heads.new ≡ steps due kinds.now text.now (keeping heads.old (goes from (lent cells.old output.old)))) × (result.answer ≡ GoesOn → result.run.counts.scans ≡ from.counts.scans + due) }
{
    let until = from.counts.scans + due;
    let mut run = from;
    while run.counts.scans < until {
        let st = run.step(kinds, text, heads, cells, output);
        let Answer::GoesOn = st.answer else {
            return st;
        };
        run = st.run;
    }
    run.goes_on()
}
