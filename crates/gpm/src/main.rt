// Strachey's macrogenerator as a program: a script from standard input, its output to standard output, the report of the
// run to standard error.
//
// The status at the end is always 0. What goes wrong with the input or the output is said by a further line on standard
// error, behind the report: `read failed`, where no whole text could be lent and so nothing was run, and `write failed`,
// where some of the output may have been written. The report is written first, so it is there whatever becomes of the
// output, as where standard output is a closed pipe. Where standard error itself cannot be written there is no place left
// to say so.
#![tactic(auto)]

ghost use Rattle.std.specs.Prelude.{◌+◌, ◌<◌, ◌≤◌, ◌≡◌, ◌++◌, ◌↔◌, length, take, IfOk, IsErrAnd, IsTrue, MatchResult};
ghost use Rattle.std.specs.IoError.{error_kind};
ghost use Rattle.std.specs.Io.{ReadsAtMost};
ghost use Rattle.std.specs.Io.KnownBytes.{Consumes, IsAtEnd, ReadConsumes};
ghost use Rattle.io.specs.Counts.{IsPrefixLen};
ghost use Rattle.language.specs.Outcomes;
ghost use Rattle.expander.specs.Reports.{refused_with};
ghost use Rattle.gpm.specs.Line.{item, report_line};

use expander::Report;
use language::Sizes;
use language::outcomes::Outcome;
use std::io::{ErrorKind, Read};

// One byte more than a text may have, so that a longer one is seen and refused.
const ROOM: usize = Sizes::TEXT_LIMIT + 1;

const STANDARD_OUTPUT: i32 = 1;

const STANDARD_ERROR: i32 = 2;

const CELLS: usize = 16384;

const SCANS: u64 = 10000000;

// Six numbers of at most twenty digits, each with a byte behind it.
const LINE: usize = 126;

// How often in a row a read may be interrupted before it counts as failed.
const TRIES: u32 = 1000000;

// A read that failed, and how much of the text the reads before it gave.
#[derive(Clone, Copy, Debug)]
struct ReadFailed {
    len: usize,
}

fn main(rt: HostRuntime) {
    let mut text = [0u8; ROOM];
    match read_input(&mut rt.stdin(), &mut text) {
        Ok(len) => run(&text[..len]),
        Err(_) => {
            write_report(nothing_lent());
            io::write_all(STANDARD_ERROR, b"read failed\n");
        }
    }
}

// Reads until the input ends, a read fails or the text is full. The text then begins with what the reads gave, and that is
// all of the input where no read failed and there is room left.
fn read_input<R: Read>(from: &mut R, text: &mut [u8]) -> Result<usize, ReadFailed>
    ensures prefix_len { MatchResult result (λ len. IsPrefixLen len text.new) (λ failed. IsPrefixLen failed.len text.new) }
    ensures bytes { MatchResult result (λ len. Consumes (R.remaining from.old) (R.remaining from.new) (take len text.new)) (λ failed. Consumes (R.remaining from.old) (R.remaining from.new) (take failed.len text.new)) }
    ensures whole { IfOk result (λ len. len < length text.old → IsAtEnd (R.remaining from.new)) }
{
    let mut len = 0;
    while len < text.len() {
        match read_some(from, &mut text[len..]) {
            Ok(0) => return Ok(len),
            Ok(more) => len += more,
            Err(_) => return Err(ReadFailed { len }),
        }
    }
    Ok(len)
}

// One read. One that was only interrupted is made again.
fn read_some<R: Read>(from: &mut R, text: &mut [u8]) -> std::io::Result<usize>
    ensures bound { ReadsAtMost result text.new }
    ensures bytes { ReadConsumes (R.remaining from.old) (R.remaining from.new) result text.new }
{
    for _ in 0..TRIES {
        let got = from.read(text);
        if !is_interrupted(&got) {
            return got;
        }
    }
    from.read(text)
}

// Whether the read that answered this was only interrupted.
fn is_interrupted(got: &std::io::Result<usize>) -> bool
    ensures { IsTrue result ↔ IsErrAnd got.now (λ e. error_kind e ≡ ErrorKind.Interrupted) }
{
    matches!(got, Err(error) if error.kind() == ErrorKind::Interrupted)
}

// The report where no whole text could be read: a text that cannot be lent is refused, "all counts 0".
fn nothing_lent() -> Report
    ensures { result ≡ refused_with Outcomes.too_large }
{
    Report::refused(Outcome::TooLarge)
}

// Runs a text, and writes the report and then the output.
fn run(text: &[u8]) {
    let mut cells = [0u32; CELLS];
    let mut output = [0u8; Sizes::OUTPUT_LIMIT];
    let report = expander::expand(text, &mut cells, &mut output, SCANS);
    write_report(report);
    if report.outcome <= u64::from(u32::from(Outcome::FinishedAtQuote)) {
        write_output(&output, report.written as usize);
    }
}

// Writes the first so many bytes of the output.
fn write_output(output: &[u8], written: usize) {
    let is_written = output
        .get(..written)
        .is_some_and(|bytes| io::write_all(STANDARD_OUTPUT, bytes));
    if !is_written {
        io::write_all(STANDARD_ERROR, b"write failed\n");
    }
}

// Writes the report's line by one write.
fn write_report(report: Report) {
    let mut line = [0u8; LINE];
    let len = put_report(&mut line, report);
    io::write_all(STANDARD_ERROR, &line[..len]);
}

// The six numbers, with single spaces between them and a line feed behind. The result is the length of the line.
fn put_report(line: &mut [u8], report: Report) -> usize
    requires { 126 ≤ length line.old }
    ensures prefix_len { IsPrefixLen result line.new }
    ensures line_after { take result line.new ≡ report_line report.outcome report.read report.written report.scans report.most report.live }
{
    let items = [
        (report.outcome, b' '),
        (report.read, b' '),
        (report.written, b' '),
        (report.scans, b' '),
        (report.most, b' '),
        (report.live, b'\n'),
    ];
    let mut len = 0;
    for (number, end) in items {
        len = put_number(line, len, number, end);
    }
    len
}

// A number and the byte behind it. The result is where the next one goes.
fn put_number(line: &mut [u8], at: usize, number: u64, end: u8) -> usize
    requires { at + 21 ≤ length line.old }
    ensures upper_bound { result ≤ at + 21 }
    ensures line_after { take result line.new ≡ take at line.old ++ item number end }
{
    let mut digits = [0u8; 20];
    let len = io::decimal(number, &mut digits);
    let last = at + len;
    line[at..last].copy_from_slice(&digits[..len]);
    line[last] = end;
    last + 1
}
