// A table of signs as signs.tsv writes it: pairs of a byte and the digit of its kind. All other entries are 0.
use crate::{fields, lending};

// A number that is no kind, for a pair that has no digit.
const NO_KIND: u8 = 10;

// As many entries as a row may lend.
pub(crate) fn table(pairs: &[u8]) -> [u8; lending::MOST_SIGNS] {
    let mut table = [0u8; lending::MOST_SIGNS];
    for pair in pairs.chunks_exact(2) {
        table[usize::from(pair[0])] = fields::digit(pair[1]).unwrap_or(NO_KIND);
    }
    table
}
