//! Which words are reserved, which are time forms, and which can stand in the path of a form.
ghost use Rattle.std.specs.Prelude.{◌≡◌, drop};
ghost use Rattle.smithy_declarations.specs.Names.{simple_targets, time_formats, named, is_float_name, is_reserved, is_name_byte, is_query_name};

use crate::place::Target;
use crate::shape_type::{Scalar, TimestampFormat};

/// The target of that name that no declaration gives: a scalar, or a document.
pub fn simple_target(name: &str) -> Option<Target>
    ensures { result ≡ named simple_targets name.now }
{
    match name {
        "boolean" => Some(Target::Simple(Scalar::Boolean)),
        "byte" => Some(Target::Simple(Scalar::Byte)),
        "short" => Some(Target::Simple(Scalar::Short)),
        "integer" => Some(Target::Simple(Scalar::Integer)),
        _ => target_behind_integer(name),
    }
}

// The target of that name among those behind `integer`.
fn target_behind_integer(name: &str) -> Option<Target>
    ensures { result ≡ named (drop 4 simple_targets) name.now }
{
    match name {
        "long" => Some(Target::Simple(Scalar::Long)),
        "string" => Some(Target::Simple(Scalar::String)),
        "blob" => Some(Target::Simple(Scalar::Blob)),
        _ => target_behind_blob(name),
    }
}

// The target of that name among those behind `blob`.
fn target_behind_blob(name: &str) -> Option<Target>
    ensures { result ≡ named (drop 7 simple_targets) name.now }
{
    match name {
        "timestamp" => Some(Target::Simple(Scalar::Timestamp)),
        "bigInteger" => Some(Target::Simple(Scalar::BigInteger)),
        "bigDecimal" => Some(Target::Simple(Scalar::BigDecimal)),
        "document" => Some(Target::Document),
        _ => None,
    }
}

/// The name is that of a scalar that no table can have.
pub fn is_float_name(name: &str) -> bool
    ensures { result ≡ is_float_name name.now }
{
    name == "float" || name == "double"
}

/// The time form of that word.
pub fn time_format_of(word: &str) -> Option<TimestampFormat>
    ensures { result ≡ named time_formats word.now }
{
    if word == "epoch-seconds" {
        Some(TimestampFormat::EpochSeconds)
    } else if word == "date-time" {
        Some(TimestampFormat::DateTime)
    } else if word == "http-date" {
        Some(TimestampFormat::HttpDate)
    } else {
        None
    }
}

/// No declaration may have the name.
pub fn is_reserved(name: &str) -> bool
    ensures { result ≡ is_reserved name.now }
{
    simple_target(name).is_some() || is_float_name(name)
}

/// The name can stand in the path of a form.
pub fn is_query_name(name: &str) -> bool
    ensures { result ≡ is_query_name name.now }
{
    for byte in name.as_bytes() {
        if !is_name_byte(*byte) {
            return false;
        }
    }
    !name.is_empty()
}

// An ASCII letter or digit, `_`, `-` or `:`.
fn is_name_byte(byte: u8) -> bool
    ensures { result ≡ is_name_byte byte }
{
    byte.is_ascii_alphanumeric() || byte == b'_' || byte == b'-' || byte == b':'
}
