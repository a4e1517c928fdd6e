// A script for given keys: the wanted bytes inside one pair of quotes of the signs in force.
#![tactic(auto)]

ghost use Rattle.std.specs.Prelude.{◌≡◌, ◌+◌, ◌≤◌, ◌<◌, length, IfOk};
ghost use Rattle.language.specs.Refusals.{refused_by, refusal_in};
ghost use Rattle.language.specs.Signs.{kind_of};
ghost use Rattle.language.specs.Matched.{depth_after};
ghost use Rattle.language.specs.Expansion.{overwritten};
ghost use Rattle.keys.specs.Scripts.{asked, answered_in, byte_of, script, too_long, matched, script_refusals, refusals, Scripted};

use language::outcomes::Outcome;
use language::signs::Sign;
use language::{Sizes, refusals};

// With its two quotes the script is as long as a text may be.
pub const WANTED_LIMIT: usize = 65534;

// Writes a script that expands to exactly the wanted bytes and gives its length, or says why it does not. The signs are a table
// of 256 kinds.
pub fn script_for(signs: &[u8], wanted: &[u8], output: &mut [u8]) -> Result<u32, Outcome>
    ensures { Scripted (asked signs.now wanted.now output.old) (answered_in result output.new) }
{
    let table = check(signs, wanted, output)?;
    write_script(table, wanted, output);
    Ok(wanted.len() as u32 + 2)
}

// The table that the signs are, or the first refusal.
fn check<'a>(signs: &'a [u8], wanted: &[u8], output: &[u8]) -> Result<&'a [u8; 256], Outcome>
    ensures refusal { refusal_in result ≡ refused_by (refusals (asked signs.now wanted.now output.now)) }
    ensures ok { IfOk result (λ table. table.now ≡ signs.now) }
{
    if too_long(wanted.len(), output.len()) {
        return Err(Outcome::TooLarge);
    }
    let table = refusals::table(signs)?;
    check_script(table, wanted, output)?;
    Ok(table)
}

// The first of the script's own.
fn check_script(table: &[u8; 256], wanted: &[u8], output: &[u8]) -> Result<(), Outcome>
    ensures { refusal_in result ≡ refused_by (script_refusals (asked table.now wanted.now output.now)) }
{
    if !quotes_match(table, wanted) {
        return Err(Outcome::NoScript);
    }
    if output.len() < wanted.len() + 2 {
        return Err(Outcome::NoOutputLeft);
    }
    Ok(())
}

// Whether one of the sizes is over its limit.
fn too_long(wanted: usize, output: usize) -> bool
    ensures { result ≡ too_long wanted output }
{
    wanted > WANTED_LIMIT || output > Sizes::OUTPUT_LIMIT
}

// Whether every quote is closed by an unquote, and every unquote closes one.
fn quotes_match(table: &[u8; 256], wanted: &[u8]) -> bool
    ensures { result ≡ matched table.now wanted.now }
{
    depth_after(table, wanted) == Some(0)
}

// The depth of quotes after bytes, where every unquote closes a quote. Comparisons in a row keep the compiled loop short.
fn depth_after(table: &[u8; 256], bytes: &[u8]) -> Option<usize>
    ensures { result ≡ depth_after table.now 0 bytes.now }
{
    let mut depth: usize = 0;
    for &byte in bytes {
        let sign = Sign::from(table[usize::from(byte)]);
        if sign == Sign::Quote {
            depth += 1;
        } else if sign == Sign::Unquote {
            if depth == 0 {
                return None;
            }
            depth -= 1;
        }
    }
    Some(depth)
}

fn write_script(table: &[u8; 256], wanted: &[u8], output: &mut [u8])
    requires { length wanted.now + 2 ≤ length output.old }
    ensures { output.new ≡ overwritten (script table.now wanted.now) output.old }
{
    memory::copy_bytes(wanted, output, 1, wanted.len());
    memory::write_byte(output, 0, byte_of(table, Sign::Quote));
    memory::write_byte(output, wanted.len() + 1, byte_of(table, Sign::Unquote));
}

// The byte of a sign.
fn byte_of(table: &[u8; 256], sign: Sign) -> u8
    ensures { result ≡ byte_of table.now (kind_of sign) }
{
    let kind = u8::from(sign);
    for byte in (0..256).rev() {
        if table[byte] == kind {
            return byte as u8;
        }
    }
    0
}
