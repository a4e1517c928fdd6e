// The five operations on operands that were read.
ghost use Rattle.std.specs.Prelude.{◌≡◌, ◌≢◌, pos, negsuc};
ghost use Rattle.decimal.specs.Refusals.{number_of};
ghost use Rattle.decimal.specs.Arithmetic.{Division, of_operands, of_numbers, ranged};
ghost use Rattle.decimal.specs.Answers.{answer_of};

use crate::shortest::Decimal;

#[derive(Clone, Copy, Debug, PartialEq, Eq)]
pub enum Operation {
    Sum,
    Difference,
    Product,
    Quotient,
    Remainder,
}

// Why there is no result: the outcomes 22 to 24.
#[derive(Clone, Copy, Debug, PartialEq, Eq)]
pub enum Refusal {
    NotANumber,
    DivisorZero,
    ResultOutOfRange,
}

impl From<Refusal> for u32 {
    ghost from_gives = { λ refusal outcome. outcome ≡ number_of refusal };

    fn from(refusal: Refusal) -> u32 {
        match refusal {
            Refusal::NotANumber => 22,
            Refusal::DivisorZero => 23,
            Refusal::ResultOutOfRange => 24,
        }
    }
}

impl Operation {
    // "First operand's 22, second's 22, 23, 24."
    pub fn of(self, first: Option<i32>, second: Option<i32>) -> Result<Decimal, Refusal>
        ensures { result ≡ answer_of (of_operands self first second) }
    {
        let a = first.ok_or(Refusal::NotANumber)?;
        let b = second.ok_or(Refusal::NotANumber)?;
        let number = self.of_numbers(a, b)?;
        Ok(Decimal::from(number))
    }

    fn of_numbers(self, first: i32, second: i32) -> Result<i32, Refusal>
        ensures { result ≡ of_numbers self first second }
    {
        let a = i64::from(first);
        let b = i64::from(second);
        match self {
            Operation::Sum => ranged(a + b),
            Operation::Difference => ranged(a - b),
            Operation::Product => ranged(a * b),
            Operation::Quotient => quotient(first, second),
            Operation::Remainder => remainder(first, second),
        }
    }
}

// The number, or 24 where it is out of range.
fn ranged(value: i64) -> Result<i32, Refusal>
    ensures { result ≡ ranged value }
{
    i32::try_from(value).map_err(|_| Refusal::ResultOutOfRange)
}

// A quotient and a remainder.
#[derive(Clone, Copy)]
struct Divided {
    quotient: i32,
    remainder: i32,
}

// Document 02, Seven. The machine's quotient is cut towards zero and its remainder has the dividend's sign; where that is
// negative, one step of the quotient raises it by the divisor's size.
#[tactic(auto, using(crate::proofs::Cut::unstepped))]
fn divide(dividend: i32, divisor: i32) -> Divided
    requires { (divisor ≢ pos 0) × (divisor ≢ negsuc 0) }
    ensures { Division dividend divisor result.quotient result.remainder }
{
    let quotient = dividend / divisor;
    let remainder = dividend % divisor;
    if remainder >= 0 {
        return Divided {
            quotient,
            remainder,
        };
    }
    if divisor > 0 {
        return Divided {
            quotient: quotient - 1,
            remainder: remainder + divisor,
        };
    }
    Divided {
        quotient: quotient + 1,
        remainder: remainder - divisor,
    }
}

// The only quotient out of range is that of the smallest number by -1, its negation.
fn quotient(dividend: i32, divisor: i32) -> Result<i32, Refusal>
    ensures { result ≡ of_numbers Operation.Quotient dividend divisor }
{
    if divisor == 0 {
        return Err(Refusal::DivisorZero);
    }
    if divisor == -1 {
        return dividend.checked_neg().ok_or(Refusal::ResultOutOfRange);
    }
    Ok(divide(dividend, divisor).quotient)
}

// By -1 it is 0, also for the smallest number.
fn remainder(dividend: i32, divisor: i32) -> Result<i32, Refusal>
    ensures { result ≡ of_numbers Operation.Remainder dividend divisor }
{
    if divisor == 0 {
        return Err(Refusal::DivisorZero);
    }
    if divisor == -1 {
        return Ok(0);
    }
    Ok(divide(dividend, divisor).remainder)
}
