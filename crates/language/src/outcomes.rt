// The outcomes of documents 01 and 02, by name, and the number of each, which a report gives. 22 to 24 are the arithmetic's.
ghost use Rattle.std.specs.Prelude.{◌≡◌};
ghost use Rattle.language.specs.Outcomes.{number_of, outcome_of};

use decimal::operations::Refusal;

#[derive(Clone, Copy, Debug, PartialEq, Eq)]
pub enum Outcome {
    Finished,
    FinishedAtQuote,
    TooLarge,
    NoScansLeft,
    NoCellsLeft,
    NoOutputLeft,
    AppliesNothing,
    ParameterInText,
    FetchesNothing,
    NotSupplied,
    BodyInCall,
    NotDefined,
    QuoteInCall,
    TextInQuotes,
    TextInCall,
    BuiltIn,
    BodyBeingRead,
    UpdateTooLong,
    NotANumber,
    DivisorZero,
    ResultOutOfRange,
    NotATable,
    SignNotOneByte,
    ReservedSign,
    EmptyName,
    NoScript,
    NumbersTooShort,
    Locked,
}

impl From<Outcome> for u32 {
    ghost from_gives = { λ outcome number. number ≡ number_of outcome };

    fn from(outcome: Outcome) -> u32 {
        match outcome {
            Outcome::Finished => 0,
            Outcome::FinishedAtQuote => 1,
            Outcome::TooLarge => 2,
            Outcome::NoScansLeft => 3,
            Outcome::NoCellsLeft => 4,
            Outcome::NoOutputLeft => 5,
            Outcome::AppliesNothing => 10,
            Outcome::ParameterInText => 11,
            Outcome::FetchesNothing => 12,
            Outcome::NotSupplied => 13,
            Outcome::BodyInCall => 14,
            Outcome::NotDefined => 15,
            Outcome::QuoteInCall => 16,
            Outcome::TextInQuotes => 17,
            Outcome::TextInCall => 18,
            Outcome::BuiltIn => 19,
            Outcome::BodyBeingRead => 20,
            Outcome::UpdateTooLong => 21,
            Outcome::NotANumber => 22,
            Outcome::DivisorZero => 23,
            Outcome::ResultOutOfRange => 24,
            Outcome::NotATable => 30,
            Outcome::SignNotOneByte => 31,
            Outcome::ReservedSign => 32,
            Outcome::EmptyName => 33,
            Outcome::NoScript => 34,
            Outcome::NumbersTooShort => 35,
            Outcome::Locked => 36,
        }
    }
}

impl From<Refusal> for Outcome {
    ghost from_gives = { λ refusal outcome. outcome ≡ outcome_of refusal };

    fn from(refusal: Refusal) -> Outcome {
        match refusal {
            Refusal::NotANumber => Outcome::NotANumber,
            Refusal::DivisorZero => Outcome::DivisorZero,
            Refusal::ResultOutOfRange => Outcome::ResultOutOfRange,
        }
    }
}
