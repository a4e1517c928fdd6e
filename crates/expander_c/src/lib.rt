// The calls for C: each slice is a pointer and a length, and the report is returned by value.
#![tactic(auto)]

ghost use Rattle.language.specs.Signs.{standard};
ghost use Rattle.language.specs.Expansion.{lent, given};
ghost use Rattle.language.specs.Demand.{Expanded};
ghost use Rattle.language.specs.Origins.{numbers, given_with, returned_with, ExpandedOrigins};
ghost use Rattle.keys.specs.Scripts.{asked, Numbered};
ghost use Rattle.expander.specs.Reports.{returned};

use expander::Report;

#[unsafe(no_mangle)]
pub extern "C" fn gpm_expand(
    text: &[u8],
    cells: &mut [u32],
    output: &mut [u8],
    allowance: u64,
) -> Report
    ensures { Expanded (given standard text.now (lent cells.old output.old) allowance) (returned result (lent cells.new output.new)) }
{
    expander::expand(text, cells, output, allowance)
}

#[unsafe(no_mangle)]
pub extern "C" fn gpm_expand_signs(
    signs: &[u8],
    text: &[u8],
    cells: &mut [u32],
    output: &mut [u8],
    allowance: u64,
) -> Report
    ensures { Expanded (given signs.now text.now (lent cells.old output.old) allowance) (returned result (lent cells.new output.new)) }
{
    expander::expand_signs(signs, text, cells, output, allowance)
}

#[unsafe(no_mangle)]
pub extern "C" fn gpm_expand_origins(
    signs: &[u8],
    text: &[u8],
    cells: &mut [u32],
    output: &mut [u8],
    origins: &mut [u32],
    rules: &mut [u32],
    allowance: u64,
) -> Report
    ensures { ExpandedOrigins (given_with (given signs.now text.now (lent cells.old output.old) allowance) (numbers origins.old rules.old)) (returned_with (returned result (lent cells.new output.new)) (numbers origins.new rules.new)) }
{
    expander::expand_origins(signs, text, cells, output, origins, rules, allowance)
}

// For a recorder of keys: a script for the wanted bytes with the standard signs, and the outcome and the script's length in one
// number.
#[unsafe(no_mangle)]
pub extern "C" fn gpm_script(wanted: &[u8], output: &mut [u8]) -> u64
    ensures { Numbered (asked standard wanted.now output.old) result output.new }
{
    expander::gpm_script(wanted, output)
}
