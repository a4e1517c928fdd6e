// A trial of a script for given keys: the output is lent as a part of a larger array that holds a pattern, and all of it is
// looked at afterwards. A script that is written is then expanded in exactly what it needs.
use crate::lending::{Lent, OUTPUT_ROOM, Run};
use crate::{fields, lending, pattern};
use expander::Report;
use language::outcomes::Outcome;

// Keys for which a script is asked, how much output is lent, and the outcome and the script, empty where it is refused, that
// should come of it. No outcome should come of output that cannot be lent.
#[derive(Clone, Copy)]
pub(crate) struct Recording<'a> {
    pub(crate) wanted: &'a [u8],
    pub(crate) lent: Option<usize>,
    pub(crate) outcome: Option<u32>,
    pub(crate) script: &'a [u8],
}

// What a call answers, in numbers.
#[derive(Clone, Copy)]
struct Answer {
    outcome: u32,
    length: usize,
}

impl From<Result<u32, Outcome>> for Answer {
    fn from(answer: Result<u32, Outcome>) -> Answer {
        match answer {
            Ok(length) => Answer {
                outcome: 0,
                length: length as usize,
            },
            Err(outcome) => Answer {
                outcome: u32::from(outcome),
                length: 0,
            },
        }
    }
}

// The outcome and the length that a number stands for.
impl From<u64> for Answer {
    fn from(number: u64) -> Answer {
        Answer {
            outcome: (number / 4294967296) as u32,
            length: (number % 4294967296) as usize,
        }
    }
}

impl<'a> Recording<'a> {
    pub(crate) fn in_columns(columns: &'a [u8]) -> Recording<'a> {
        Recording {
            wanted: fields::field(columns, 0),
            lent: fields::number(columns, 1).map(|lent| lent as usize),
            outcome: fields::number(columns, 2),
            script: fields::field(columns, 3),
        }
    }

    // Whether `gpm_script` answers as it should, whose signs are the standard ones.
    pub(crate) fn is_right(self) -> bool {
        let kinds = language::standard_kinds();
        self.is_right_by(&kinds, |output| {
            Answer::from(expander::gpm_script(self.wanted, output))
        })
    }

    // Whether `script_for` does.
    pub(crate) fn is_right_with(self, signs: &[u8]) -> bool {
        self.is_right_by(signs, |output| {
            Answer::from(keys::script_for(signs, self.wanted, output))
        })
    }

    // Whether a call gives the outcome and the script, and leaves all else as it was.
    fn is_right_by<F: FnOnce(&mut [u8]) -> Answer>(self, signs: &[u8], call: F) -> bool
        requires { F.IsAlwaysCallable call }
    {
        let mut bytes = [0; OUTPUT_ROOM];
        pattern::fill(&mut bytes);
        let answer = self
            .lent
            .and_then(|lent| lending::part(&mut bytes, lent))
            .map(call);
        answer.map(|answer| answer.outcome) == self.outcome
            && answer.map_or(0, |answer| answer.length) == self.script.len()
            && lending::output_is_right(&bytes, self.script)
            && (self.outcome != Some(0) || self.expands(signs))
    }

    // Whether the script gives the wanted bytes with no cells, as many bytes of output and three scans more.
    fn expands(self, signs: &[u8]) -> bool {
        let lent = Lent {
            cells: 0,
            output: self.wanted.len(),
            allowance: self.wanted.len() as u64 + 3,
        };
        let report = Report {
            outcome: 0,
            read: self.script.len() as u64,
            written: self.wanted.len() as u64,
            scans: lent.allowance,
            most: 0,
            live: 0,
        };
        let run = Run {
            script: self.script,
            lent,
            report,
            output: self.wanted,
        };
        run.is_right_with(signs)
    }
}
