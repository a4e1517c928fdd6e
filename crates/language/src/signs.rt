// The signs of document 01. A table gives each byte a kind: 1 to 6 for the signs in this order, 0 for a plain byte.
ghost use Rattle.std.specs.Prelude.{◌≡◌};
ghost use Rattle.language.specs.Signs.{sign_of_kind, kind_of};

#[derive(Clone, Copy, Debug, PartialEq, Eq)]
pub enum Sign {
    Plain,
    Dollar,
    Comma,
    Semicolon,
    Tilde,
    Quote,
    Unquote,
}

impl From<u8> for Sign {
    ghost from_gives = { λ kind sign. sign ≡ sign_of_kind kind };

    fn from(kind: u8) -> Sign {
        match kind {
            1 => Sign::Dollar,
            2 => Sign::Comma,
            3 => Sign::Semicolon,
            4 => Sign::Tilde,
            5 => Sign::Quote,
            6 => Sign::Unquote,
            _ => Sign::Plain,
        }
    }
}

impl From<Sign> for u8 {
    ghost from_gives = { λ sign kind. kind ≡ kind_of sign };

    fn from(sign: Sign) -> u8 {
        match sign {
            Sign::Plain => 0,
            Sign::Dollar => 1,
            Sign::Comma => 2,
            Sign::Semicolon => 3,
            Sign::Tilde => 4,
            Sign::Quote => 5,
            Sign::Unquote => 6,
        }
    }
}
