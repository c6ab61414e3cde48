//! Signs and digits, and the number that they write.

ghost use Rattle.std.specs.Prelude.{◌≡◌, ◌<◌, ◌^◌, FitsSigned};
ghost use Rattle.std.specs.Option.{SomeIff};
ghost use Rattle.std.specs.Int.{w128};
ghost use Rattle.std.specs.Str.{byte, all_ascii_digits};
ghost use Rattle.smithy_texts.specs.Numeral.{are_digits, begins_with, without_minus, without_sign, magnitude, signed, number};

/// Whether the text is decimal digits alone, or empty.
pub fn all_digits(text: &[u8]) -> bool
    ensures { result ≡ all_ascii_digits text.now }
{
    for byte in text {
        if !byte.is_ascii_digit() {
            return false;
        }
    }
    true
}

/// Whether the text is at least one decimal digit, and nothing else.
pub fn are_digits(text: &[u8]) -> bool
    ensures { result ≡ are_digits text.now }
{
    !text.is_empty() && all_digits(text)
}

/// Whether the text begins with the byte.
pub fn begins_with(byte: u8, text: &[u8]) -> bool
    ensures { result ≡ begins_with byte text.now }
{
    !text.is_empty() && text[0] == byte
}

/// The text without a `-` at its front.
pub fn without_minus(text: &[u8]) -> &[u8]
    ensures { result.now ≡ without_minus text.now }
{
    if begins_with(b'-', text) {
        &text[1..]
    } else {
        text
    }
}

/// The text without a `+` or `-` at its front.
pub fn without_sign(text: &[u8]) -> &[u8]
    ensures { result.now ≡ without_sign text.now }
{
    if begins_with(b'+', text) || begins_with(b'-', text) {
        &text[1..]
    } else {
        text
    }
}

/// The number of all digits of the text, where it is one of 128 bits.
pub fn magnitude(text: &[u8]) -> Option<u128>
    ensures { SomeIff result (magnitude text.now < 2 ^ 128) (magnitude text.now) }
{
    let mut value: u128 = 0;
    for byte in text {
        if byte.is_ascii_digit() {
            let digit = u128::from(byte - b'0');
            value = value.checked_mul(10)?.checked_add(digit)?;
        }
    }
    Some(value)
}

/// A magnitude with its sign, where it is a number of 128 bits.
pub fn signed(is_negative: bool, magnitude: u128) -> Option<i128>
    ensures { SomeIff result (FitsSigned w128 (signed is_negative magnitude)) (signed is_negative magnitude) }
{
    if is_negative {
        0i128.checked_sub_unsigned(magnitude)
    } else {
        0i128.checked_add_unsigned(magnitude)
    }
}

/// The signed number of all digits of the text, where it is one of 128 bits.
pub fn number(text: &[u8]) -> Option<i128>
    ensures { SomeIff result (FitsSigned w128 (number text.now)) (number text.now) }
{
    signed(begins_with(b'-', text), magnitude(text)?)
}
