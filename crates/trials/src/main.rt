// Runs the expander on every row of scripts.tsv, signs.tsv and origins.tsv, and on texts, cells and output of every size about the
// limits; asks for a script for every row of keys.tsv, and for keys and output of every size about theirs. Writes a line for
// each trial that is wrong and, at the end of each part, how many there were.
#![tactic(auto)]

mod fields;
mod lending;
mod pattern;
mod recording;
mod rows;
mod signs;
mod sizes;
mod tracing;
mod wanted;

use rows::Count;
use std::fs;
use std::io::{Cursor, Write};
use std::os::fd::AsRawFd;

pub(crate) const STANDARD_OUTPUT: i32 = 1;

const STANDARD_ERROR: i32 = 2;

fn main(rt: HostRuntime) {
    try_file(&rt, "scripts.tsv", b" rows, ", rows::script_is_right);
    try_file(&rt, "signs.tsv", b" signs, ", rows::signs_are_right);
    try_file(&rt, "origins.tsv", b" origins, ", rows::origins_are_right);
    try_file(&rt, "keys.tsv", b" keys, ", rows::keys_are_right);
    let text = [b'x'; sizes::LONGEST];
    print(sizes::try_all(&text), b" sizes, ");
    print(wanted::try_all(&text), b" sizes of keys, ");
}

fn try_file<F: Fn(&[u8]) -> Option<bool>>(rt: &HostRuntime, path: &str, name: &[u8], is_right: F)
    requires { F.IsAlwaysCallable is_right }
{
    let opened = match fs::open(rt, path) {
        Ok(opened) => opened,
        Err(error) => {
            fail(path, &error);
            return;
        }
    };
    let mut text = io::large_buffer();
    let len = io::read_full(opened.as_raw_fd(), &mut text);
    drop(opened);
    print(rows::try_rows(&text[..len], is_right), name);
}

// Writes a line to standard error: the path, a colon and the system's text for the error, without the number that std puts
// in parentheses behind it. A text that is longer than the room for it, as none of the system's is, is cut off.
fn fail(path: &str, error: &std::io::Error) {
    let mut room = Cursor::new([0u8; 256]);
    let _whole = write!(room, "{error}").is_ok();
    let text = room.into_inner();
    let message = fields::up_to(fields::up_to(&text, 0), b'(').trim_ascii_end();
    io::write_all(STANDARD_ERROR, path.as_bytes());
    io::write_all(STANDARD_ERROR, b": ");
    io::write_all(STANDARD_ERROR, message);
    io::write_all(STANDARD_ERROR, b"\n");
}

fn print(count: Count, name: &[u8]) {
    io::print_decimal(STANDARD_OUTPUT, count.tried as u64);
    io::write_all(STANDARD_OUTPUT, name);
    io::print_decimal(STANDARD_OUTPUT, count.wrong as u64);
    io::write_all(STANDARD_OUTPUT, b" wrong\n");
}
