// A trial of the expander: it is lent parts of larger arrays that hold a pattern, and all that it could write to is looked at
// afterwards.
ghost use Rattle.std.specs.Prelude.{◌≡◌, ◌+◌, ◌≤◌, length, IfSome};

use crate::{fields, pattern};
use expander::Report;
use language::Sizes;

// How many elements lie in front of a lent part and, at least, behind it.
pub(crate) const MARGIN: usize = 32;

// The most that a trial lends: one more than the expander takes.
const MOST_CELLS: usize = Sizes::CELLS_LIMIT + 1;

pub(crate) const MOST_OUTPUT: usize = Sizes::OUTPUT_LIMIT + 1;

// Far more than the 256 that it takes.
pub(crate) const MOST_SIGNS: usize = 65536;

const CELLS_ROOM: usize = MOST_CELLS + 2 * MARGIN;

pub(crate) const OUTPUT_ROOM: usize = MOST_OUTPUT + 2 * MARGIN;

pub(crate) const SIGNS_ROOM: usize = MOST_SIGNS + 2 * MARGIN;

// What a trial lends beside the signs and the script.
#[derive(Clone, Copy)]
pub(crate) struct Lent {
    pub(crate) cells: usize,
    pub(crate) output: usize,
    pub(crate) allowance: u64,
}

// A run: what is lent to it, and the report and the output that it should give.
#[derive(Clone, Copy)]
pub(crate) struct Run<'a> {
    pub(crate) script: &'a [u8],
    pub(crate) lent: Lent,
    pub(crate) report: Report,
    pub(crate) output: &'a [u8],
}

impl<'a> Run<'a> {
    // The run in these columns, if its numbers are numbers.
    pub(crate) fn in_columns(columns: &'a [u8]) -> Option<Run<'a>> {
        let lent = Lent {
            cells: fields::number(columns, 0)? as usize,
            output: fields::number(columns, 1)? as usize,
            allowance: scans_in(columns, 2),
        };
        Some(Run {
            script: fields::field(columns, 3),
            lent,
            report: report_in(columns)?,
            output: fields::field(columns, 10),
        })
    }

    // Whether `expand` makes the run as it should.
    pub(crate) fn is_right(self) -> bool {
        self.is_right_by(|cells, output| {
            expander::expand(self.script, cells, output, self.lent.allowance)
        })
    }

    // Whether `expand_signs` does.
    pub(crate) fn is_right_with(self, signs: &[u8]) -> bool {
        let mut room = [0; SIGNS_ROOM];
        let Some(signs) = laid(signs, &mut room) else {
            return false;
        };
        self.is_right_by(|cells, output| {
            expander::expand_signs(signs, self.script, cells, output, self.lent.allowance)
        })
    }

    // Whether a call gives the report and the output, and leaves all lent memory and what lies around it as it should.
    pub(crate) fn is_right_by<F: FnOnce(&mut [u32], &mut [u8]) -> Report>(self, call: F) -> bool
        requires { F.IsAlwaysCallable call }
    {
        let mut cells = [0; CELLS_ROOM];
        let mut bytes = [0; OUTPUT_ROOM];
        pattern::fill(&mut cells);
        pattern::fill(&mut bytes);
        let (Some(lent_cells), Some(lent_output)) = (
            part(&mut cells, self.lent.cells),
            part(&mut bytes, self.lent.output),
        ) else {
            return false;
        };
        let report = call(lent_cells, lent_output);
        report == self.report
            && report.written == self.output.len() as u64
            && output_is_right(&bytes, self.output)
            && cells_are_right(&cells, self.lent.cells, report.outcome)
    }
}

fn report_in(columns: &[u8]) -> Option<Report> {
    Some(Report {
        outcome: u64::from(fields::number(columns, 4)?),
        read: u64::from(fields::number(columns, 5)?),
        written: u64::from(fields::number(columns, 6)?),
        scans: scans_in(columns, 7),
        most: u64::from(fields::number(columns, 8)?),
        live: u64::from(fields::number(columns, 9)?),
    })
}

// A column of scans. One that holds no number stands for as many as four bytes can count.
fn scans_in(columns: &[u8], number: usize) -> u64 {
    u64::from(fields::number(columns, number).unwrap_or(u32::MAX))
}

// The part behind the margin that is lent, if a margin is left behind it.
pub(crate) fn part<T>(room: &mut [T], len: usize) -> Option<&mut [T]>
    ensures { IfSome result (λ part. length part.now ≡ len) }
{
    let end = room.len().checked_sub(MARGIN)?;
    room.get_mut(MARGIN..end)?.get_mut(..len)
}

// The signs as a part of a larger array, in which nothing beside them is a kind.
pub(crate) fn laid<'a>(signs: &[u8], room: &'a mut [u8]) -> Option<&'a [u8]> {
    pattern::fill(room);
    let part = part(room, signs.len())?;
    part.copy_from_slice(signs);
    Some(part)
}

// Whether the output stands at the start of the lent part and all else is as before.
pub(crate) fn output_is_right(bytes: &[u8; OUTPUT_ROOM], output: &[u8]) -> bool {
    let mut before = [0; OUTPUT_ROOM];
    pattern::fill(&mut before);
    bytes[MARGIN..].starts_with(output) && is_around(bytes, &before, output.len())
}

// Whether the lent cells are zero, or as before where the call is refused, and all others as before.
fn cells_are_right(cells: &[u32; CELLS_ROOM], lent: usize, outcome: u64) -> bool {
    let mut before = [0; CELLS_ROOM];
    pattern::fill(&mut before);
    if is_refused(outcome) {
        return *cells == before;
    }
    lent <= MOST_CELLS
        && cells[MARGIN..MARGIN + lent].iter().all(|cell| *cell == 0)
        && is_around(cells, &before, lent)
}

// Whether what lies around the first so many elements behind the margin is as before.
pub(crate) fn is_around<T: PartialEq>(room: &[T], before: &[T], len: usize) -> bool
    requires { MARGIN + len ≤ length before.now }
{
    let (margin, _) = before.split_at(MARGIN);
    room.starts_with(margin) && room.ends_with(&before[MARGIN + len..])
}

// Whether this is the outcome of a call that touches nothing: sizes, signs or runs of numbers that are not taken.
fn is_refused(outcome: u64) -> bool {
    matches!(outcome, 2 | 30..=32 | 35)
}
