//! The numbers of what the libraries answer.
ghost use Rattle.std.specs.Prelude.{◌≡◌};
ghost use Rattle.smithy_transcode_c.specs.Numbers.{second_number, compare_number, lint_number, form_number, pair_number, kind_number};

use smithy_compare::CompareError;
use smithy_form::FormError;
use smithy_lint::{Kind, LintError};
use smithy_transcode::TranscodeError;

// The number of a refusal of the second of two bodies.
fn second_number(error: TranscodeError) -> u8
    ensures { result ≡ second_number error }
{
    match error {
        TranscodeError::InvalidInput => 41,
        TranscodeError::TooDeep => 42,
        TranscodeError::TooWide => 43,
        TranscodeError::NotCarried => 44,
        TranscodeError::Inexpressible(_) | TranscodeError::NoMemory => error.number(),
    }
}

/// The number of two bodies that aren't compared.
pub(crate) fn compare_number(error: CompareError) -> u8
    ensures { result ≡ compare_number error }
{
    match error {
        CompareError::First(error) => error.number(),
        CompareError::Second(error) => second_number(error),
        CompareError::NoMemory => 8,
    }
}

/// The number of a body in which nothing was looked for.
pub(crate) fn lint_number(error: LintError) -> u8
    ensures { result ≡ lint_number error }
{
    match error {
        LintError::NoMemory => 8,
        LintError::NotWellFormed => 61,
        LintError::TooNested => 62,
    }
}

/// The number of a form of which no value was read.
pub(crate) fn form_number(error: FormError) -> u8
    ensures { result ≡ form_number error }
{
    match error {
        FormError::NoMemory => 8,
        FormError::BadPair(_) => 70,
        FormError::NotForm => 71,
        FormError::Repeated(_) => 72,
        FormError::NoValue => 73,
    }
}

/// The pair that is refused, counted from 1, or 0.
pub(crate) fn pair_number(error: FormError) -> u64
    ensures { result ≡ pair_number error }
{
    match error {
        FormError::BadPair(number) | FormError::Repeated(number) => number,
        FormError::NoMemory | FormError::NotForm | FormError::NoValue => 0,
    }
}

/// The number of what was found.
pub(crate) fn kind_number(kind: Kind) -> u8
    ensures { result ≡ kind_number kind }
{
    match kind {
        Kind::Unknown => 1,
        Kind::Mismatch => 2,
        Kind::Wide => 3,
        Kind::NotCarried => 4,
        Kind::Deep => 5,
        Kind::Key => 6,
        Kind::Union => 7,
        Kind::Null => 8,
    }
}
