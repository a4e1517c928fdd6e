// A trial of the call that says where each byte came from: both runs of numbers are lent as parts of larger arrays too.
use crate::lending::{MARGIN, Run};
use crate::{fields, lending, pattern};

// More than the longest output.
const MOST_NUMBERS: usize = lending::MOST_OUTPUT + 1;

const NUMBERS_ROOM: usize = MOST_NUMBERS + 2 * MARGIN;

// How many numbers of a run are lent, and those that should stand there, with a blank behind each but the last.
#[derive(Clone, Copy)]
pub(crate) struct Noted<'a> {
    pub(crate) lent: usize,
    pub(crate) numbers: &'a [u8],
}

// Whether the call makes a run as it should and notes these origins and rules, and leaves what lies around them.
pub(crate) fn is_right(signs: &[u8], run: Run, origins: Noted, rules: Noted) -> bool {
    let written = run.output.len();
    is_right_by(signs, run, origins.lent, rules.lent, |first, second| {
        are_noted(first, origins.numbers, written) && are_noted(second, rules.numbers, written)
    })
}

// The same of a run whose origins are not stored: what lies around them is looked at.
pub(crate) fn is_as_ordinary(signs: &[u8], run: Run) -> bool {
    let written = run.output.len();
    is_right_by(
        signs,
        run,
        run.lent.output,
        run.lent.output,
        |first, second| {
            are_untouched_around(first, written) && are_untouched_around(second, written)
        },
    )
}

// Whether the call makes a run as it should, with so many origins and rules lent, and a test holds of the arrays around these.
fn is_right_by<F: FnOnce(&[u32; NUMBERS_ROOM], &[u32; NUMBERS_ROOM]) -> bool>(
    signs: &[u8],
    run: Run,
    origins: usize,
    rules: usize,
    are_right: F,
) -> bool
    requires { F.IsAlwaysCallable are_right }
{
    let mut room = [0; lending::SIGNS_ROOM];
    let mut first = [0; NUMBERS_ROOM];
    let mut second = [0; NUMBERS_ROOM];
    pattern::fill(&mut first);
    pattern::fill(&mut second);
    let (Some(signs), Some(origins), Some(rules)) = (
        lending::laid(signs, &mut room),
        lending::part(&mut first, origins),
        lending::part(&mut second, rules),
    ) else {
        return false;
    };
    let is_run_right = run.is_right_by(|cells, output| {
        let allowance = run.lent.allowance;
        expander::expand_origins(signs, run.script, cells, output, origins, rules, allowance)
    });
    is_run_right && are_right(&first, &second)
}

// Whether the numbers written in a field stand from the margin on, as many as bytes were written, and the pattern around them.
fn are_noted(numbers: &[u32; NUMBERS_ROOM], field: &[u8], written: usize) -> bool {
    let wanted = field
        .split_inclusive(|byte| *byte == b' ')
        .map(|number| fields::value(fields::up_to(number, b' ')));
    are_untouched_around(numbers, written)
        && numbers[MARGIN..]
            .iter()
            .take(written)
            .map(|number| Some(*number))
            .eq(wanted)
}

fn are_untouched_around(numbers: &[u32; NUMBERS_ROOM], written: usize) -> bool {
    let mut before = [0; NUMBERS_ROOM];
    pattern::fill(&mut before);
    written <= MOST_NUMBERS && lending::is_around(numbers, &before, written)
}
