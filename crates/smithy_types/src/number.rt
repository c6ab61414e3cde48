//! Whole numbers of 64 bits, with or without a sign.

ghost use Rattle.std.specs.Prelude.{◌≡◌, unsigned_abs, FitsSigned};
ghost use Rattle.std.specs.Result.{OkIff};
ghost use Rattle.std.specs.Int.{FitsUnsigned, w8, w16, w32, w64};
ghost use Rattle.smithy_types.specs.Number.{whole_number};

/// A whole number of a document or a JSON text. Equal are two of one variant alone.
#[derive(Debug, Clone, Copy, PartialEq)]
pub enum Number {
    /// A number from 0 to 2^64-1.
    PosInt(u64),
    /// A number from -2^63 to 2^63-1, as a rule below 0.
    NegInt(i64),
}

/// The number is none of the wanted type.
#[derive(Debug, Clone, Copy, PartialEq, Eq, thiserror::Error)]
#[error("TryFromNumberError")]
pub struct TryFromNumberError;

impl Number {
    fn whole_number(self) -> i128
        ensures { result ≡ whole_number self }
    {
        match self {
            Number::PosInt(n) => i128::from(n),
            Number::NegInt(n) => i128::from(n),
        }
    }
}

impl TryFrom<Number> for u8 {
    type Error = TryFromNumberError;

    ghost try_from_gives = { λ n r. OkIff r (FitsUnsigned w8 (whole_number n)) (unsigned_abs (whole_number n)) };

    fn try_from(value: Number) -> Result<u8, TryFromNumberError> {
        u8::try_from(value.whole_number())
            .ok()
            .ok_or(TryFromNumberError)
    }
}

impl TryFrom<Number> for u16 {
    type Error = TryFromNumberError;

    ghost try_from_gives = { λ n r. OkIff r (FitsUnsigned w16 (whole_number n)) (unsigned_abs (whole_number n)) };

    fn try_from(value: Number) -> Result<u16, TryFromNumberError> {
        u16::try_from(value.whole_number())
            .ok()
            .ok_or(TryFromNumberError)
    }
}

impl TryFrom<Number> for u32 {
    type Error = TryFromNumberError;

    ghost try_from_gives = { λ n r. OkIff r (FitsUnsigned w32 (whole_number n)) (unsigned_abs (whole_number n)) };

    fn try_from(value: Number) -> Result<u32, TryFromNumberError> {
        u32::try_from(value.whole_number())
            .ok()
            .ok_or(TryFromNumberError)
    }
}

impl TryFrom<Number> for u64 {
    type Error = TryFromNumberError;

    ghost try_from_gives = { λ n r. OkIff r (FitsUnsigned w64 (whole_number n)) (unsigned_abs (whole_number n)) };

    fn try_from(value: Number) -> Result<u64, TryFromNumberError> {
        u64::try_from(value.whole_number())
            .ok()
            .ok_or(TryFromNumberError)
    }
}

impl TryFrom<Number> for i8 {
    type Error = TryFromNumberError;

    ghost try_from_gives = { λ n r. OkIff r (FitsSigned w8 (whole_number n)) (whole_number n) };

    fn try_from(value: Number) -> Result<i8, TryFromNumberError> {
        i8::try_from(value.whole_number())
            .ok()
            .ok_or(TryFromNumberError)
    }
}

impl TryFrom<Number> for i16 {
    type Error = TryFromNumberError;

    ghost try_from_gives = { λ n r. OkIff r (FitsSigned w16 (whole_number n)) (whole_number n) };

    fn try_from(value: Number) -> Result<i16, TryFromNumberError> {
        i16::try_from(value.whole_number())
            .ok()
            .ok_or(TryFromNumberError)
    }
}

impl TryFrom<Number> for i32 {
    type Error = TryFromNumberError;

    ghost try_from_gives = { λ n r. OkIff r (FitsSigned w32 (whole_number n)) (whole_number n) };

    fn try_from(value: Number) -> Result<i32, TryFromNumberError> {
        i32::try_from(value.whole_number())
            .ok()
            .ok_or(TryFromNumberError)
    }
}

impl TryFrom<Number> for i64 {
    type Error = TryFromNumberError;

    ghost try_from_gives = { λ n r. OkIff r (FitsSigned w64 (whole_number n)) (whole_number n) };

    fn try_from(value: Number) -> Result<i64, TryFromNumberError> {
        i64::try_from(value.whole_number())
            .ok()
            .ok_or(TryFromNumberError)
    }
}
