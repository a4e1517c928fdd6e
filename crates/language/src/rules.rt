// The rules by which a byte of the output is written, and the number of each; and whether the numbers of a run have room.
ghost use Rattle.std.specs.Prelude.{◌≡◌, length};
ghost use Rattle.language.specs.Origins.{rule_number, numbers, too_short};

#[derive(Clone, Copy, Debug, PartialEq, Eq)]
pub enum Rule {
    CopiedFromText,
    CopiedFromBody,
    Fetched,
    GivenByVal,
    GivenByBuiltIn,
}

impl From<Rule> for u32 {
    ghost from_gives = { λ rule number. number ≡ rule_number rule };

    fn from(rule: Rule) -> u32 {
        match rule {
            Rule::CopiedFromText => 1,
            Rule::CopiedFromBody => 2,
            Rule::Fetched => 3,
            Rule::GivenByVal => 4,
            Rule::GivenByBuiltIn => 5,
        }
    }
}

// Whether either run of numbers is shorter than the output.
pub fn too_short(origins: &[u32], rules: &[u32], output: &[u8]) -> bool
    ensures { result ≡ too_short (numbers origins.now rules.now) (length output.now) }
{
    origins.len() < output.len() || rules.len() < output.len()
}
