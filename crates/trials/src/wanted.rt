// Asks for scripts for plain keys of five sizes in output of seven sizes, and writes a line for each call that is wrong.
ghost use Rattle.std.specs.Prelude.{◌+◌, ◌≤◌, length};

use crate::recording::Recording;
use crate::rows::Count;
use crate::sizes;
use keys::WANTED_LIMIT;
use language::Sizes;

// As long as the longest script and one byte more.
const ROOM: usize = WANTED_LIMIT + 3;

pub(crate) fn try_all(text: &[u8]) -> Count {
    let mut count = Count { tried: 0, wrong: 0 };
    for len in sizes::about(WANTED_LIMIT) {
        for output in lent(len) {
            sizes::note(&mut count, is_right(text, len, output), &[len, output]);
        }
    }
    count
}

// None, as long as the keys, one byte short of the script, its length, and about the limit.
fn lent(wanted: usize) -> [usize; 7]
    requires { wanted ≤ 65535 }
{
    [
        0,
        wanted,
        wanted + 1,
        wanted + 2,
        Sizes::OUTPUT_LIMIT - 1,
        Sizes::OUTPUT_LIMIT,
        Sizes::OUTPUT_LIMIT + 1,
    ]
}

// Whether the call for the first so many bytes and so much output is right.
fn is_right(text: &[u8], len: usize, output: usize) -> bool
    requires { len ≤ 65535 }
{
    let Some(wanted) = text.get(..len) else {
        return false;
    };
    let outcome = expected(len, output);
    let mut room = [b'x'; ROOM];
    quote(&mut room, len);
    let script: &[u8] = if outcome == 0 { &room[..len + 2] } else { b"" };
    let recording = Recording {
        wanted,
        lent: Some(output),
        outcome: Some(outcome),
        script,
    };
    recording.is_right()
}

// The quotes of a script for so many bytes.
fn quote(script: &mut [u8], len: usize)
    requires { len + 2 ≤ length script.old }
{
    script[0] = b'<';
    script[len + 1] = b'>';
}

// Plain bytes have a script.
fn expected(len: usize, output: usize) -> u32
    requires { len ≤ 65535 }
{
    if len > WANTED_LIMIT || output > Sizes::OUTPUT_LIMIT {
        return 2;
    }
    if output < len + 2 { 5 } else { 0 }
}
