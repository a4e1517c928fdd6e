// Reading an operand byte by byte.
ghost use Rattle.std.specs.Prelude.{◌≡◌, List, [], ◌∷◌, ◌++◌, ℕ, ◌+◌, ◌*◌, min, Some};
ghost use Rattle.decimal.specs.Operand.{operand, ranged};
ghost use Rattle.decimal.specs.Reading.{Took, after_first, after_digit, beyond, signed as signed_of};

// How far a reader has come.
#[derive(Clone, Copy)]
enum Stage {
    Start,
    Signed,
    Digits,
    Refused,
}

// What was read so far. The size stops growing at one more than any operand has. The fields are private: only `new`
// and `take` make readers.
#[derive(Clone, Copy)]
pub struct Reader {
    stage: Stage,
    negative: bool,
    size: u32,
}

impl Reader {
    // One more than the size of the smallest number.
    const BEYOND: u64 = 2147483649;

    pub fn new() -> Reader
        ensures { Took [] result }
    {
        Reader {
            stage: Stage::Start,
            negative: false,
            size: 0,
        }
    }

    // The reader after one byte more.
    pub fn take(self, byte: u8) -> Reader
        ensures { (bytes : List ℕ) → Took bytes self → Took (bytes ++ (byte ∷ [])) result }
    {
        match self.stage {
            Stage::Start => self.take_first(byte),
            Stage::Signed | Stage::Digits => self.take_digit(byte),
            Stage::Refused => self,
        }
    }

    fn take_first(self, byte: u8) -> Reader
        ensures { result ≡ after_first self byte }
    {
        match byte {
            b'+' => Reader {
                stage: Stage::Signed,
                negative: false,
                ..self
            },
            b'-' => Reader {
                stage: Stage::Signed,
                negative: true,
                ..self
            },
            _ => self.take_digit(byte),
        }
    }

    fn take_digit(self, byte: u8) -> Reader
        ensures { result ≡ after_digit self byte }
    {
        match byte {
            b'0'..=b'9' => Reader {
                stage: Stage::Digits,
                size: grown(self.size, byte - b'0'),
                ..self
            },
            _ => Reader {
                stage: Stage::Refused,
                ..self
            },
        }
    }

    // What the bytes are, if they end here: the number of an operand, or none.
    pub fn finish(self) -> Option<i32>
        ensures { (bytes : List ℕ) → Took bytes self → result ≡ operand bytes }
    {
        match self.stage {
            Stage::Digits => signed(self.negative, self.size),
            Stage::Start | Stage::Signed | Stage::Refused => None,
        }
    }
}

// The size with one digit more.
fn grown(size: u32, digit: u8) -> u32
    ensures { result ≡ min (10 * size + digit) beyond }
{
    let wide = u64::from(size) * 10 + u64::from(digit);
    wide.min(Reader::BEYOND) as u32
}

// The number of this sign and size, where it is in range.
fn signed(negative: bool, size: u32) -> Option<i32>
    ensures { result ≡ ranged (Some (signed_of negative size)) }
{
    let value = i64::from(size);
    i32::try_from(if negative { -value } else { value }).ok()
}

// The operand that a whole text is.
pub(crate) fn read(text: &[u8]) -> Option<i32>
    ensures { result ≡ operand text.now }
{
    let mut reader = Reader::new();
    for byte in text {
        reader = reader.take(*byte);
    }
    reader.finish()
}
