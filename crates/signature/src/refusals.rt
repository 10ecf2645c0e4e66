// The refusals of 01's list "Turned down, in checking order" and of 02: each has its number as its discriminant.
ghost use Rattle.std.specs.Prelude.{◌≡◌};
ghost use Rattle.signature.specs.Refusal.{number_of, number_in};

#[derive(Clone, Copy, PartialEq, Eq)]
pub enum Refusal {
    SignatureUnlawful = 1,
    TooShort,
    Unsound,
    NumberOutside,
    Held,
    NotHeld,
    Malformed,
    NotLinear,
    TooHeavy,
    Ambiguous,
    Full,
    Shared,
    BookingUnlawful,
    TreeTooLarge,
    TreeBroken,
    PlaceOutside,
    FormatBroken,
    RangeWrong,
    LogBeyond,
    ChargesMalformed,
}

impl From<Refusal> for u16 {
    ghost from_gives = { λ r n. n ≡ number_of r };

    fn from(r: Refusal) -> u16 {
        r as u16
    }
}

// The number of a call's answer: 0 where it is not refused.
pub fn number<T>(answer: &Result<T, Refusal>) -> u16
    ensures { result ≡ number_in answer.now }
{
    match answer {
        Ok(_) => 0,
        Err(r) => u16::from(*r),
    }
}
