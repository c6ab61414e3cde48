//! Instants at the front of a text, up to a delimiter.

ghost use Rattle.std.specs.Prelude.{◌≡◌, ◌≢◌, ◌≤◌, ◌+◌, ◌-◌, List, ℕ, ℤ, length, IfSome, IfOk, IfErr, IsSomeAnd};
ghost use Rattle.std.specs.Option.{SomeIff};
ghost use Rattle.std.specs.Str.{IsUtf8, IsCharBoundary};
ghost use Rattle.smithy_instants.specs.declared.format.Format.TheVariants.{EpochSeconds};
ghost use Rattle.smithy_instants.specs.DateFront.{IsDelimited, EndsInTime, HasFront, ReadsFront};
ghost use Rattle.smithy_instants.specs.Private.FrontLength.{zone_length, date_time_length, http_date_length};

use crate::date_text::{after, fraction_length};
use crate::{DateTime, DateTimeParseError, Format};

fn zone_length(others: bool, text: &[u8]) -> usize
    ensures { result ≡ zone_length others text.now }
{
    if others && !text.is_empty() && (text[0] == b'+' || text[0] == b'-') {
        6
    } else {
        1
    }
}

// Where a zone of this length ends that begins the rest of a text.
fn end_of_zone(text: &[u8], zone: &[u8], size: usize) -> Option<usize>
    requires { length zone.now ≤ length text.now }
    ensures { SomeIff result (size ≤ length zone.now) (length text.now - length zone.now + size) }
{
    if size > zone.len() {
        return None;
    }
    Some(text.len() - (zone.len() - size))
}

// Where a date-time ends, if the text is long enough.
fn date_time_length(others: bool, text: &[u8]) -> Option<usize>
    ensures { SomeIff result (date_time_length others text.now ≤ length text.now) (date_time_length others text.now) }
{
    if text.len() < 19 {
        return None;
    }
    let rest = after(text, 19);
    let zone = after(rest, fraction_length(rest));
    end_of_zone(text, zone, zone_length(others, zone))
}

// Where an http-date ends, if the text is long enough.
fn http_date_length(text: &[u8]) -> Option<usize>
    ensures { SomeIff result (http_date_length text.now ≤ length text.now) (http_date_length text.now) }
{
    if text.len() < 25 {
        return None;
    }
    let rest = after(text, 25);
    let zone = after(rest, fraction_length(rest));
    end_of_zone(text, zone, 4)
}

// The text before this place, and what is left behind it and the delimiter.
fn split_after(s: &str, end: usize, delim: char) -> Option<(&str, &str)>
    ensures some { IfSome result (λ p. IsDelimited delim s.now p.0.now p.1.now) }
    ensures only { (front rest : List ℕ) → length front ≡ end → IsUtf8 front → IsDelimited delim s.now front rest
        → IsSomeAnd result (λ p. (p.0.now ≡ front) × (p.1.now ≡ rest)) }
{
    if !s.is_char_boundary(end) {
        return None;
    }
    let (front, behind) = s.split_at(end);
    if behind.is_empty() {
        return Some((front, behind));
    }
    Some((front, behind.strip_prefix(delim)?))
}

// The text before the first delimiter, and what is left behind it.
fn split_first(s: &str, delim: char) -> (&str, &str)
    ensures delimited { IsDelimited delim s.now result.0.now result.1.now }
    ensures in_time { EndsInTime EpochSeconds delim result.0.now }
    ensures only { (front rest : List ℕ) → EndsInTime EpochSeconds delim front → IsDelimited delim s.now front rest
        → (result.0.now ≡ front) × (result.1.now ≡ rest) }
{
    match s.split_once(delim) {
        Some(parts) => parts,
        None => (s, ""),
    }
}

fn split_front(s: &str, format: Format, delim: char) -> Option<(&str, &str)>
    ensures delimited { IfSome result (λ p. IsDelimited delim s.now p.0.now p.1.now) }
    ensures in_time { IfSome result (λ p. EndsInTime format delim p.0.now) }
    ensures only { (front rest : List ℕ) (d : ℤ) → HasFront format delim s.now front d rest
        → IsSomeAnd result (λ p. (p.0.now ≡ front) × (p.1.now ≡ rest)) }
{
    let text = s.as_bytes();
    match format {
        Format::DateTime => split_after(s, date_time_length(false, text)?, delim),
        Format::DateTimeWithOffset => split_after(s, date_time_length(true, text)?, delim),
        Format::HttpDate => split_after(s, http_date_length(text)?, delim),
        Format::EpochSeconds => Some(split_first(s, delim)),
    }
}

impl DateTime {
    /// The instant of the text of the form at the front of `s`, and what is left of `s`: it has to be empty, or to
    /// begin with the delimiter, which is dropped. A text of seconds ends before the first delimiter.
    pub fn read(
        s: &str,
        format: Format,
        delim: char,
    ) -> Result<(DateTime, &str), DateTimeParseError>
        ensures ok { IfOk result (λ p. ReadsFront format delim s.now p.0 p.1.now) }
        ensures err { IfErr result (λ e. (d : ℤ) (rest : List ℕ) → ¬ (ReadsFront format delim s.now d rest)) }
    {
        let Some((front, rest)) = split_front(s, format, delim) else {
            return Err(DateTimeParseError);
        };
        Ok((DateTime::from_str(front, format)?, rest))
    }
}
