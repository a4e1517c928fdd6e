// The standing of a run in lent cells, by value. The cells before `left` hold the calls being collected, the innermost last;
// those from `right` on hold the definitions and the lists of the bodies being read, the newest first.
ghost use Rattle.std.specs.Prelude.{◌≡◌, ◌+◌, ◌<◌};
ghost use Rattle.machine.specs.declared.run.Answer.TheVariants.{GoesOn, Ended, Damaged};
ghost use Rattle.machine.specs.Machine.{fresh, charged, collected, wrote};
ghost use Rattle.machine.specs.Moving.{places_below, is_in_range};

use language::Sizes;
use language::outcomes::Outcome;

// The calls being collected: where their cells end, the innermost one, and the length cell of its argument in hand.
#[derive(Clone, Copy)]
pub struct Calls {
    pub left: usize,
    pub call: usize,
    pub hand: usize,
}

// The body being read: its list, the definition that it reads and how far.
#[derive(Clone, Copy)]
pub struct Source {
    pub list: usize,
    pub body: usize,
    pub offset: usize,
}

// What a report counts.
#[derive(Clone, Copy)]
pub struct Counts {
    pub read: usize,
    pub written: usize,
    pub scans: u64,
    pub most: usize,
    pub live: usize,
}

// NOWHERE stands for no call, and for the text.
#[derive(Clone, Copy)]
pub struct Run {
    pub calls: Calls,
    pub source: Source,
    pub counts: Counts,
    pub right: usize,
    pub quotes: usize,
    pub charge: usize,
}

// How a run stands: it goes on, or it ended with an outcome of the documents. Damaged: the cells hold what those of a real run
// never do. Refused: the numbers of the standing are out of range, and nothing is touched.
#[derive(Clone, Copy)]
pub enum Answer {
    GoesOn,
    Ended(Outcome),
    Damaged,
    Refused,
}

// The next standing and the answer.
#[derive(Clone, Copy)]
pub struct Stepped {
    pub run: Run,
    pub answer: Answer,
}

impl Run {
    pub const NOWHERE: usize = 65535;

    // The fresh standing in so many cells.
    pub fn new(cells: usize) -> Run
        ensures { result ≡ fresh cells }
    {
        Run {
            calls: Calls {
                left: 0,
                call: Run::NOWHERE,
                hand: 0,
            },
            source: Source {
                list: Run::NOWHERE,
                body: 0,
                offset: 0,
            },
            counts: Counts {
                read: 0,
                written: 0,
                scans: 0,
                most: 0,
                live: 0,
            },
            right: cells,
            quotes: 0,
            charge: 0,
        }
    }

    pub(crate) fn goes_on(self) -> Stepped
        ensures { result ≡ record { run = self; answer = GoesOn } }
    {
        Stepped {
            run: self,
            answer: Answer::GoesOn,
        }
    }

    pub(crate) fn ends_with(self, outcome: Outcome) -> Stepped
        ensures { result ≡ record { run = self; answer = Ended outcome } }
    {
        Stepped {
            run: self,
            answer: Answer::Ended(outcome),
        }
    }

    pub(crate) fn damaged(self) -> Stepped
        ensures { result ≡ record { run = self; answer = Damaged } }
    {
        Stepped {
            run: self,
            answer: Answer::Damaged,
        }
    }

    // Whether the numbers of the standing can be those of a run in so many cells and so many bytes of output.
    pub(crate) fn is_in_range(self, cells: usize, output: usize) -> bool
        ensures { result ≡ is_in_range self cells output }
    {
        cells <= Sizes::CELLS_LIMIT
            && self.right <= cells
            && self.calls.left <= self.right
            && self.charge <= cells
            && self.charge + self.right == self.calls.left + cells
            && self.counts.live <= Sizes::CELLS_LIMIT
            && self.counts.written <= output
            && self.places_are_below()
    }

    fn places_are_below(self) -> bool
        ensures { result ≡ places_below self }
    {
        self.calls.call <= Run::NOWHERE
            && self.calls.hand <= Sizes::CELLS_LIMIT
            && self.source.list <= Run::NOWHERE
            && self.source.body <= Run::NOWHERE
            && self.source.offset <= 4294967296
            && self.quotes as u64 <= self.counts.scans
    }

    // The charge raised by so many cells, and the most that was charged.
    pub(crate) fn charged(mut self, cells: usize) -> Run
        requires { self.charge + cells < 4294967296 }
        ensures { result ≡ charged cells self }
    {
        self.charge += cells;
        self.counts.most = self.counts.most.max(self.charge);
        self
    }

    // So many cells more are collected.
    pub(crate) fn collected(self, cells: usize) -> Run
        requires { (self.charge + cells < 4294967296) × (self.calls.left + cells < 4294967296) }
        ensures { result ≡ collected cells self }
    {
        let mut run = self.charged(cells);
        run.calls.left += cells;
        run
    }

    // So many bytes more are written.
    pub(crate) fn wrote(mut self, bytes: usize) -> Run
        requires { self.counts.written + bytes < 18446744073709551616 }
        ensures { result ≡ wrote bytes self }
    {
        self.counts.written += bytes;
        self
    }
}
