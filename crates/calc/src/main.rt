// Arithmetic by lines: reads OPERATION,FIRST,SECOND from each line of the standard input and writes the outcome and the
// result. A line that names no operation, or lacks a part, is answered by a question mark.
#![tactic(auto)]

use decimal::operations::{Operation, Refusal};
use decimal::shortest::Decimal;

fn main() {
    let mut text = io::large_buffer();
    let len = io::read_full(0, &mut text);
    answer_lines(&text[..len]);
}

fn answer_lines(text: &[u8]) {
    for line in text.split_inclusive(|byte| *byte == b'\n') {
        match answer(line.strip_suffix(b"\n").unwrap_or(line)) {
            Some(answer) => write_answer(answer),
            None => {
                io::write_all(1, b"?");
            }
        }
        io::write_all(1, b"\n");
    }
}

// The answer to a line. The second operand is all behind the second comma.
fn answer(line: &[u8]) -> Option<Result<Decimal, Refusal>> {
    let mut parts = line.splitn(3, |byte| *byte == b',');
    let operation = operation(parts.next()?)?;
    Some(decimal::calculate(operation, parts.next()?, parts.next()?))
}

// The operation that has a name.
fn operation(name: &[u8]) -> Option<Operation> {
    match name {
        b"+" => Some(Operation::Sum),
        b"-" => Some(Operation::Difference),
        b"*" => Some(Operation::Product),
        b"Quot" => Some(Operation::Quotient),
        b"Rem" => Some(Operation::Remainder),
        _ => None,
    }
}

// The outcome, a blank and, where there is one, the result.
fn write_answer(answer: Result<Decimal, Refusal>) {
    match answer {
        Ok(decimal) => {
            io::write_all(1, b"0 ");
            io::write_all(1, decimal.as_bytes());
        }
        Err(refusal) => {
            io::print_decimal(1, u64::from(u32::from(refusal)));
            io::write_all(1, b" ");
        }
    }
}
