// Strachey's macrogenerator in lent memory: the public calls over the machine's one call.
#![tactic(auto)]

ghost use Rattle.std.specs.Prelude.{◌≡◌, ◌≤◌, length, None};
ghost use Rattle.language.specs.Signs.{standard, text_limit, cells_limit};
ghost use Rattle.language.specs.Outcomes.{number_of};
ghost use Rattle.language.specs.Refusals.{refused_by};
ghost use Rattle.language.specs.Expansion.{lent, given, refusals, expanded};
ghost use Rattle.language.specs.Demand.{Expanded};
ghost use Rattle.language.specs.Origins.{numbers, given_with, returned_with, ExpandedOrigins};
ghost use Rattle.keys.specs.Scripts.{asked, Numbered};
ghost use Rattle.expander.specs.Reports.{outcome_of, report_of, refused_with, returned, Ran, NotedIn};

use language::outcomes::Outcome;
use language::{Sizes, refusals, rules};
use machine::index;
use machine::run::{Answer, Run, Stepped};

// What a run reports, in document 01's order: for Rattle and for C.
#[repr(C)]
#[derive(Clone, Copy, Debug, PartialEq, Eq)]
pub struct Report {
    pub outcome: u64,
    pub read: u64,
    pub written: u64,
    pub scans: u64,
    pub most: u64,
    pub live: u64,
}

// A whole run over a text, in the cells, the output and the allowance of scans that are lent, with the standard signs. By
// scanning: report, output and cells are those of the run that document 01 defines. By substitution: demand 3 holds of them.
pub fn expand(text: &[u8], cells: &mut [u32], output: &mut [u8], allowance: u64) -> Report
    ensures { Expanded (given standard text.now (lent cells.old output.old) allowance) (returned result (lent cells.new output.new)) }
{
    if sizes_of(text, cells, output).too_large() {
        return Report::refused(Outcome::TooLarge);
    }
    expand_unnoted(&language::standard_kinds(), text, cells, output, allowance)
}

// The same with the caller's own signs: a table of 256 kinds in place of the standard one.
pub fn expand_signs(
    signs: &[u8],
    text: &[u8],
    cells: &mut [u32],
    output: &mut [u8],
    allowance: u64,
) -> Report
    ensures { Expanded (given signs.now text.now (lent cells.old output.old) allowance) (returned result (lent cells.new output.new)) }
{
    match refusals::on_lent(sizes_of(text, cells, output), signs) {
        Ok(()) => expand_unnoted(&kinds_of(signs), text, cells, output, allowance),
        Err(outcome) => Report::refused(outcome),
    }
}

// The same, and for each byte of the output the bytes of the text read by then and the rule that wrote it.
pub fn expand_origins(
    signs: &[u8],
    text: &[u8],
    cells: &mut [u32],
    output: &mut [u8],
    origins: &mut [u32],
    rules: &mut [u32],
    allowance: u64,
) -> Report
    ensures { ExpandedOrigins (given_with (given signs.now text.now (lent cells.old output.old) allowance) (numbers origins.old rules.old)) (returned_with (returned result (lent cells.new output.new)) (numbers origins.new rules.new)) }
{
    if let Err(earlier) = refusals::on_lent(sizes_of(text, cells, output), signs) {
        return Report::refused(earlier);
    }
    if rules::too_short(origins, rules, output) {
        return Report::refused(Outcome::NumbersTooShort);
    }
    let kinds = kinds_of(signs);
    expand_accepted(&kinds, text, cells, output, origins, rules, allowance)
}

// For a recorder of keys: a script for the wanted bytes with the standard signs, and the outcome and the script's length in one
// number.
pub fn gpm_script(wanted: &[u8], output: &mut [u8]) -> u64
    ensures { Numbered (asked standard wanted.now output.old) result output.new }
{
    match keys::script_for(&language::standard_kinds(), wanted, output) {
        Ok(length) => u64::from(length),
        Err(outcome) => u64::from(u32::from(outcome)) * 4294967296,
    }
}

// What is measured against the limits.
fn sizes_of(text: &[u8], cells: &[u32], output: &[u8]) -> Sizes
    ensures { result ≡ record { text = length text.now; cells = length cells.now; output = length output.now } }
{
    Sizes {
        text: text.len(),
        cells: cells.len(),
        output: output.len(),
    }
}

// A call that is not refused and lends no numbers.
fn expand_unnoted(
    kinds: &[u8; 256],
    text: &[u8],
    cells: &mut [u32],
    output: &mut [u8],
    allowance: u64,
) -> Report
    requires { refused_by (refusals (given kinds.now text.now (lent cells.old output.old) allowance)) ≡ None }
    ensures { returned result (lent cells.new output.new) ≡ expanded (given kinds.now text.now (lent cells.old output.old) allowance) }
{
    let mut origins = [0u32; 0];
    let mut rules = [0u32; 0];
    expand_accepted(
        kinds,
        text,
        cells,
        output,
        &mut origins,
        &mut rules,
        allowance,
    )
}

// A call that is not refused: the run to its end, the cells cleared, the report.
fn expand_accepted(
    kinds: &[u8; 256],
    text: &[u8],
    cells: &mut [u32],
    output: &mut [u8],
    origins: &mut [u32],
    rules: &mut [u32],
    allowance: u64,
) -> Report
    requires { refused_by (refusals (given kinds.now text.now (lent cells.old output.old) allowance)) ≡ None }
    ensures { (returned result (lent cells.new output.new) ≡ expanded (given kinds.now text.now (lent cells.old output.old) allowance)) × NotedIn (given kinds.now text.now (lent cells.old output.old) allowance) (numbers origins.old rules.old) (numbers origins.new rules.new) }
{
    let st = run_to_end(kinds, text, cells, output, origins, rules, allowance);
    memory::clear(cells);
    Report::of(st)
}

// The signs as an array, in which every byte has its place.
fn kinds_of(signs: &[u8]) -> [u8; 256]
    requires { length signs.now ≡ 256 }
    ensures { result ≡ signs.now }
{
    let mut kinds = [0; 256];
    kinds.copy_from_slice(signs);
    kinds
}

// Scans until the run ends or the allowance is used. The cells then hold the definitions that stand: demand 3 is whole here,
// before they are cleared.
fn run_to_end(
    kinds: &[u8; 256],
    text: &[u8],
    cells: &mut [u32],
    output: &mut [u8],
    origins: &mut [u32],
    rules: &mut [u32],
    allowance: u64,
) -> Stepped
    requires { (length text.now ≤ text_limit) × (length cells.old ≤ cells_limit) }
    ensures { Ran (given kinds.now text.now (lent cells.old output.old) allowance) result (lent cells.new output.new) × NotedIn (given kinds.now text.now (lent cells.old output.old) allowance) (numbers origins.old rules.old) (numbers origins.new rules.new) }
{
    let run = Run::new(cells.len());
    let mut heads = [index::NO_DEFINITION; 64];
    machine::go_on(
        run, kinds, text, &mut heads, cells, output, origins, rules, allowance,
    )
}

impl Report {
    // Of a call that is refused: "all counts 0".
    pub fn refused(outcome: Outcome) -> Report
        ensures { result ≡ refused_with (number_of outcome) }
    {
        Report {
            outcome: u64::from(u32::from(outcome)),
            read: 0,
            written: 0,
            scans: 0,
            most: 0,
            live: 0,
        }
    }

    fn of(st: Stepped) -> Report
        ensures { result ≡ report_of st }
    {
        let run = st.run;
        Report {
            outcome: u64::from(u32::from(outcome_of(st.answer))),
            read: run.counts.read as u64,
            written: run.counts.written as u64,
            scans: run.counts.scans,
            most: run.counts.most as u64,
            live: run.counts.live as u64,
        }
    }
}

// A run that goes on has no scan left. The last two answers a run from a fresh standing never has.
fn outcome_of(answer: Answer) -> Outcome
    ensures { number_of result ≡ outcome_of answer }
{
    match answer {
        Answer::GoesOn => Outcome::NoScansLeft,
        Answer::Ended(outcome) => outcome,
        Answer::Damaged | Answer::Refused => Outcome::NoCellsLeft,
    }
}
