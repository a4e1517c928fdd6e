// Signed 32-bit arithmetic on decimal text: document 01, Arithmetic, and document 02, Seven. The call takes two operands
// as bytes of any length and answers the shortest decimal of the result, or the refusal.
#![tactic(auto)]

pub mod operations;
pub mod reader;
pub mod shortest;

ghost use Rattle.std.specs.Prelude.{◌≡◌};
ghost use Rattle.decimal.specs.Arithmetic.{calculated};
ghost use Rattle.decimal.specs.Answers.{answer_of};

use operations::{Operation, Refusal};
use shortest::Decimal;

// The operation on two texts.
pub fn calculate(operation: Operation, first: &[u8], second: &[u8]) -> Result<Decimal, Refusal>
    ensures { result ≡ answer_of (calculated operation first.now second.now) }
{
    operation.of(reader::read(first), reader::read(second))
}
