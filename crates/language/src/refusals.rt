// What a call is refused for before its first scan: the sizes lent, then the checks of a table that takes the place of the
// standard one.
ghost use Rattle.std.specs.Prelude.{◌≡◌, IfOk};
ghost use Rattle.language.specs.Refusals.{refused_by, some_below, is_above, has_kind, count_below, sign_not_one_byte, is_reserved, reserved_sign, sign_refusals, lent_refusals, refusal_in};

use crate::Sizes;
use crate::outcomes::Outcome;

// The first refusal of a call that expands a text.
#[tactic(auto, unfolding(crate::specs::Refusals::refused_by))]
pub fn on_lent(sizes: Sizes, signs: &[u8]) -> Result<(), Outcome>
    ensures { refusal_in result ≡ refused_by (lent_refusals sizes.text sizes.cells sizes.output signs.now) }
{
    if sizes.too_large() {
        return Err(Outcome::TooLarge);
    }
    on_signs(signs)
}

// The first of the signs.
pub fn on_signs(signs: &[u8]) -> Result<(), Outcome>
    ensures { refusal_in result ≡ refused_by (sign_refusals signs.now) }
{
    table(signs)?;
    Ok(())
}

// The table that the signs are, or the first refusal. Inlined, so that a caller's loops read the signs where they lie.
#[inline(always)]
#[tactic(auto, unfolding(crate::specs::Refusals::refused_by))]
pub fn table(signs: &[u8]) -> Result<&[u8; 256], Outcome>
    ensures refusal { refusal_in result ≡ refused_by (sign_refusals signs.now) }
    ensures ok { IfOk result (λ table. table.now ≡ signs.now) }
{
    let Ok(table) = <&[u8; 256]>::try_from(signs) else {
        return Err(Outcome::NotATable);
    };
    if has_another_kind(table) {
        return Err(Outcome::NotATable);
    }
    if sign_not_one_byte(table) {
        return Err(Outcome::SignNotOneByte);
    }
    if reserved_sign(table) {
        return Err(Outcome::ReservedSign);
    }
    Ok(table)
}

// An entry above 6.
fn has_another_kind(table: &[u8; 256]) -> bool
    ensures { result ≡ some_below 256 (is_above table.now) }
{
    table.iter().any(|&kind| kind > 6)
}

// A kind from 1 to 6 with no byte or several.
fn sign_not_one_byte(table: &[u8; 256]) -> bool
    ensures { result ≡ sign_not_one_byte table.now }
{
    (1..7).any(|kind| bytes_of(table, kind) != 1)
}

// How many bytes have a kind.
fn bytes_of(table: &[u8; 256], kind: u8) -> usize
    ensures { result ≡ count_below 256 (has_kind table.now kind) }
{
    let mut count = 0;
    for &of in table {
        if of == kind {
            count += 1;
        }
    }
    count
}

// A letter, a digit, `+`, `-` or `*` with a kind other than 0. Few entries are, so that is asked first.
fn reserved_sign(table: &[u8; 256]) -> bool
    ensures { result ≡ reserved_sign table.now }
{
    table
        .iter()
        .enumerate()
        .any(|(byte, &kind)| kind != 0 && is_reserved(byte as u8))
}

// The bytes of built-in names, of numbers and of parameters after `~`.
fn is_reserved(byte: u8) -> bool
    ensures { result ≡ is_reserved byte }
{
    matches!(byte, b'a'..=b'z' | b'A'..=b'Z' | b'0'..=b'9' | b'+' | b'-' | b'*')
}
