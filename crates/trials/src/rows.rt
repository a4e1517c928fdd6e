// Tries each row of scripts.tsv, signs.tsv, origins.tsv or keys.tsv, and writes a line for each that is wrong.
//
// The first line of a file names its columns: what a row is about, in all but scripts.tsv the signs and how many bytes of their
// table are lent, in origins.tsv how many origins and rules are lent, and then the columns of a run: the cells, the output and the
// allowance lent, the script, the six numbers of the report, and the output; in origins.tsv the origins and the rules behind that;
// in keys.tsv the wanted bytes, the output lent, the outcome and the script.
use crate::lending::Run;
use crate::recording::Recording;
use crate::tracing::Noted;
use crate::{STANDARD_OUTPUT, fields, signs, tracing};

// How many trials were made, and how many of them are wrong.
#[derive(Clone, Copy)]
pub(crate) struct Count {
    pub(crate) tried: usize,
    pub(crate) wrong: usize,
}

// Tries each line but the first.
pub(crate) fn try_rows<F: Fn(&[u8]) -> Option<bool>>(text: &[u8], is_right: F) -> Count
    requires { F.IsAlwaysCallable is_right }
{
    let lines = || text.split_inclusive(|byte| *byte == b'\n').skip(1);
    Count {
        tried: lines().count(),
        wrong: lines().filter(|line| is_wrong(line, &is_right)).count(),
    }
}

// Whether the row on a line is wrong, as one is that lacks a number. One that is wrong is named.
fn is_wrong<F: Fn(&[u8]) -> Option<bool>>(line: &[u8], is_right: &F) -> bool
    requires { F.IsAlwaysCallable is_right.now }
{
    let row = fields::up_to(line, b'\n');
    if is_right(row).unwrap_or(false) {
        return false;
    }
    io::write_all(STANDARD_OUTPUT, b"wrong: ");
    io::write_all(STANDARD_OUTPUT, fields::field(row, 0));
    io::write_all(STANDARD_OUTPUT, b"\n");
    true
}

// By every call: `expand` is `expand_signs` with the standard signs, and that is `expand_origins` without the origins.
pub(crate) fn script_is_right(row: &[u8]) -> Option<bool> {
    let run = Run::in_columns(fields::from(row, 1))?;
    let kinds = language::standard_kinds();
    Some(run.is_right() && signed_run_is_right(&kinds, run))
}

pub(crate) fn signs_are_right(row: &[u8]) -> Option<bool> {
    let table = signs::table(fields::field(row, 1));
    let signs = signs_in(row, &table)?;
    let run = Run::in_columns(fields::from(row, 3))?;
    Some(signed_run_is_right(signs, run))
}

// The part of the table that a row lends.
fn signs_in<'a>(row: &[u8], table: &'a [u8]) -> Option<&'a [u8]> {
    table.get(..fields::number(row, 2)? as usize)
}

// Whether a run is right by both calls that take signs.
fn signed_run_is_right(signs: &[u8], run: Run) -> bool {
    run.is_right_with(signs) && tracing::is_as_ordinary(signs, run)
}

pub(crate) fn origins_are_right(row: &[u8]) -> Option<bool> {
    let table = signs::table(fields::field(row, 1));
    let signs = signs_in(row, &table)?;
    let columns = fields::from(row, 5);
    let origins = Noted {
        lent: fields::number(row, 3)? as usize,
        numbers: fields::field(columns, 11),
    };
    let rules = Noted {
        lent: fields::number(row, 4)? as usize,
        numbers: fields::field(columns, 12),
    };
    let run = Run::in_columns(columns)?;
    Some(tracing::is_right(signs, run, origins, rules))
}

// By `script_for`, and with the standard signs by the call that C callers are given too.
pub(crate) fn keys_are_right(row: &[u8]) -> Option<bool> {
    let table = signs::table(fields::field(row, 1));
    let signs = signs_in(row, &table)?;
    let recording = Recording::in_columns(fields::from(row, 3));
    let kinds = language::standard_kinds();
    let is_standard = signs == kinds.as_slice();
    Some(recording.is_right_with(signs) && (!is_standard || recording.is_right()))
}
