//! Numbers in words of a command.
ghost use Rattle.std.specs.Prelude.{◌≡◌};
ghost use Rattle.smithy_commands.specs.SmallNumber.{number_within};

use smithy_texts::numeral::{are_digits, magnitude};

/// The number of a word of decimal digits, if it is at most `most` and has at most so many digits. A sign isn't taken.
pub(crate) fn number_within(digits: usize, most: u64, word: &str) -> Option<u64>
    ensures { result ≡ number_within digits most word.now }
{
    let word = word.as_bytes();
    if !are_digits(word) || word.len() > digits {
        return None;
    }
    let number = u64::try_from(magnitude(word)?).ok()?;
    if number > most {
        return None;
    }
    Some(number)
}
