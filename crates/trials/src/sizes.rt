// Runs plain texts of five sizes on cells and output of five sizes each, and writes a line for each run that is wrong.
ghost use Rattle.std.specs.Prelude.{◌+◌, ◌<◌, ◌≤◌, All};

use crate::STANDARD_OUTPUT;
use crate::lending::{Lent, Run};
use crate::rows::Count;
use expander::Report;
use language::Sizes;

// The longest text that is tried: one byte more than may be lent.
pub(crate) const LONGEST: usize = Sizes::TEXT_LIMIT + 1;

pub(crate) fn try_all(text: &[u8]) -> Count {
    let mut count = Count { tried: 0, wrong: 0 };
    for len in about(Sizes::TEXT_LIMIT) {
        for cells in about(Sizes::CELLS_LIMIT) {
            for output in about(Sizes::OUTPUT_LIMIT) {
                let sizes = [len, cells, output];
                note(&mut count, is_right(text, len, cells, output), &sizes);
            }
        }
    }
    count
}

// Counts a trial of these sizes, and names one that is wrong. It saturates, so that no caller has to bound its loops.
pub(crate) fn note(count: &mut Count, is_right: bool, sizes: &[usize]) {
    count.tried = count.tried.saturating_add(1);
    if !is_right {
        count.wrong = count.wrong.saturating_add(1);
        name(sizes);
    }
}

// None, one, one less than the limit, the limit and one more.
pub(crate) fn about(limit: usize) -> [usize; 5]
    requires { (0 < limit) × (limit < 4294967296) }
    ensures { All (λ size. size ≤ limit + 1) result }
{
    [0, 1, limit - 1, limit, limit + 1]
}

// Whether the run of the first so many bytes on so many cells and so much output is right.
fn is_right(text: &[u8], len: usize, cells: usize, output: usize) -> bool {
    let report = expected(len, cells, output);
    let (Some(script), Some(written)) = (text.get(..len), text.get(..report.written as usize))
    else {
        return false;
    };
    let lent = Lent {
        cells,
        output,
        allowance: 10000000,
    };
    let run = Run {
        script,
        lent,
        report,
        output: written,
    };
    run.is_right()
}

// Writes the line for a trial that is wrong.
fn name(sizes: &[usize]) {
    io::write_all(STANDARD_OUTPUT, b"wrong:");
    for size in sizes {
        io::write_all(STANDARD_OUTPUT, b" ");
        io::print_decimal(STANDARD_OUTPUT, *size as u64);
    }
    io::write_all(STANDARD_OUTPUT, b"\n");
}

// The report of plain bytes: they are copied, one a scan, and the end of the text is one scan more.
fn expected(len: usize, cells: usize, output: usize) -> Report {
    if len > Sizes::TEXT_LIMIT || cells > Sizes::CELLS_LIMIT || output > Sizes::OUTPUT_LIMIT {
        return report(2, 0, 0, 0);
    }
    if len > output {
        return report(5, output + 1, output, output as u64 + 1);
    }
    report(0, len, len, len as u64 + 1)
}

fn report(outcome: u64, read: usize, written: usize, scans: u64) -> Report {
    Report {
        outcome,
        read: read as u64,
        written: written as u64,
        scans,
        most: 0,
        live: 0,
    }
}
