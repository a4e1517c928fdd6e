// The shortest decimal of a number.
ghost use Rattle.std.specs.Prelude.{◌≡◌, [], ◌∷◌, ◌++◌, ◌+◌, ◌≤◌, ◌<◌, length};
ghost use Rattle.decimal.specs.Shortest.{digits, shortest};

use std::marker::Model;

// A text of at most eleven bytes, and in clauses just that text; zero bytes stand past its length.
#[derive(Clone, Copy)]
pub struct Decimal {
    bytes: [u8; 11],
    len: usize,
}

impl Model for Decimal {
    ghost use Rattle.std.specs.Prelude.{List, ℕ};

    ghost Value = { List ℕ };

    ghost use Rattle.std.specs.Prelude.{◌≡◌, ◌≤◌};
    ghost use Rattle.decimal.specs.Answers.{text_in, decimal_of};

    ghost view = { text_in };

    ghost invariant = { λ d. (d.len ≤ 11) × (decimal_of (text_in d) ≡ d) };

    ghost inverse = { decimal_of };

    ghost inverse_ok = { λ d h. h.1 };
}

impl Decimal {
    // The text.
    pub fn as_bytes(&self) -> &[u8]
        ensures text { result.now ≡ self.now }
        ensures at_most_eleven { length self.now ≤ 11 }
    {
        &self.bytes[..self.len]
    }

    // The empty text.
    fn new() -> Decimal
        ensures { result ≡ [] }
    {
        Decimal {
            bytes: [0; 11],
            len: 0,
        }
    }

    fn push(&mut self, byte: u8)
        requires { length self.old < 11 }
        ensures { self.new ≡ self.old ++ (byte ∷ []) }
    {
        self.bytes[self.len] = byte;
        self.len += 1;
    }

    // The digits of a size behind the text.
    #[tactic(auto, using(crate::proofs::Digits::digits_small, crate::proofs::Digits::digits_some))]
    fn push_digits(&mut self, size: u32)
        requires { length self.old + length (digits size) ≤ 11 }
        ensures { self.new ≡ self.old ++ digits size }
    {
        if size < 10 {
            self.push(b'0' + size as u8);
            return;
        }
        self.push_digits(size / 10);
        self.push(b'0' + (size % 10) as u8);
    }
}

// Of a count.
impl From<u32> for Decimal {
    ghost from_gives = { λ count text. text ≡ digits count };

    fn from(count: u32) -> Decimal {
        let mut text = Decimal::new();
        text.push_digits(count);
        text
    }
}

// Of a number.
impl From<i32> for Decimal {
    ghost from_gives = { λ number text. text ≡ shortest number };

    fn from(number: i32) -> Decimal {
        let mut text = Decimal::new();
        if number < 0 {
            text.push(b'-');
        }
        text.push_digits(number.unsigned_abs());
        text
    }
}
