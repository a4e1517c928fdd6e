// The signs, the limits, the refusals, the outcomes, the built-ins and the rules of documents 01 and 02 as values of the code. The
// rest of this crate is definitions and theorems.
#![tactic(auto)]

pub mod built_ins;
pub mod outcomes;
pub mod refusals;
pub mod rules;
pub mod signs;

ghost use Rattle.std.specs.Prelude.{◌≡◌};
ghost use Rattle.language.specs.Signs.{standard};
ghost use Rattle.language.specs.Refusals.{sizes_too_large};

// The standard table: the kind of each byte, 0 for plain and 1 to 6 for `$` `,` `;` `~` `<` `>`.
const STANDARD: [u8; 256] =
    *b"\0\0\0\0\0\0\0\0\0\0\0\0\0\0\0\0\0\0\0\0\0\0\0\0\0\0\0\0\0\0\0\0\0\0\0\0\x01\0\0\0\0\0\0\0\x02\0\0\0\0\0\0\0\0\0\0\0\0\0\0\x03\x05\0\x06\0\0\0\0\0\0\0\0\0\0\0\0\0\0\0\0\0\0\0\0\0\0\0\0\0\0\0\0\0\0\0\0\0\0\0\0\0\0\0\0\0\0\0\0\0\0\0\0\0\0\0\0\0\0\0\0\0\0\0\0\0\0\0\x04\0\0\0\0\0\0\0\0\0\0\0\0\0\0\0\0\0\0\0\0\0\0\0\0\0\0\0\0\0\0\0\0\0\0\0\0\0\0\0\0\0\0\0\0\0\0\0\0\0\0\0\0\0\0\0\0\0\0\0\0\0\0\0\0\0\0\0\0\0\0\0\0\0\0\0\0\0\0\0\0\0\0\0\0\0\0\0\0\0\0\0\0\0\0\0\0\0\0\0\0\0\0\0\0\0\0\0\0\0\0\0\0\0\0\0\0\0\0\0\0\0\0\0\0\0\0\0\0\0";

pub fn standard_kinds() -> [u8; 256]
    ensures { result ≡ standard }
{
    STANDARD
}

// The sizes of the text, the cells and the output lent.
#[derive(Clone, Copy)]
pub struct Sizes {
    pub text: usize,
    pub cells: usize,
    pub output: usize,
}

impl Sizes {
    pub const TEXT_LIMIT: usize = 65536;

    pub const CELLS_LIMIT: usize = 65536;

    pub const OUTPUT_LIMIT: usize = 65536;

    // Whether one of the sizes is over its limit.
    pub fn too_large(self) -> bool
        ensures { result ≡ sizes_too_large self.text self.cells self.output }
    {
        self.text > Sizes::TEXT_LIMIT
            || self.cells > Sizes::CELLS_LIMIT
            || self.output > Sizes::OUTPUT_LIMIT
    }
}
