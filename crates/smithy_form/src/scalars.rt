//! Scalars by their texts in a form.
ghost use Rattle.std.specs.Prelude.{◌≡◌};
ghost use Rattle.std.specs.Cow.{cow_str_bytes};
ghost use Rattle.smithy_declarations.specs.declared.shape_type.Scalar.TheVariants as scalars;
ghost use Rattle.smithy_declarations.specs.Table.{scalar, type_of};
ghost use Rattle.smithy_declarations.specs.declared.shape_type.TimestampFormat.{TimestampFormat as Form};
ghost use Rattle.smithy_shapes.specs.Site.{site_of, kind_at};
ghost use Rattle.smithy_query_codec.specs.Leaves.{form_at};
ghost use Rattle.smithy_form.specs.Private.Answers.{HasNoParts};
ghost use Rattle.smithy_form.specs.Private.Scalars.{TellsNumber, is_whole_of, ReadsWhole, ReadsScalar};

use crate::error::FormError;
use itoa::Buffer;
use smithy_schema::{Schema, ShapeType, TimestampFormat};
use smithy_texts::decimal_text::{coefficient, net_exponent};
use smithy_texts::numeral::number;
use smithy_types::{BigDecimal, DateTime, DateTimeFormatError, base64};
use smithy_value::Value;
use std::alloc::Global;
use std::borrow::{CowSlice, CowStr};

/// The whole number of 128 bits that is written as the text, if one is.
fn written_number(text: &str) -> Option<i128>
    ensures { TellsNumber text.now result }
{
    let found = number(text.as_bytes())?;
    let mut buffer = Buffer::new();
    if buffer.format(found) == text {
        Some(found)
    } else {
        None
    }
}

/// Whether a whole number is one of this kind.
fn is_of_kind(kind: ShapeType, number: i128) -> bool
    ensures { result ≡ is_whole_of kind number }
{
    match kind {
        ShapeType::Byte => i8::try_from(number).is_ok(),
        ShapeType::Short => i16::try_from(number).is_ok(),
        ShapeType::Integer => i32::try_from(number).is_ok(),
        ShapeType::Long => i64::try_from(number).is_ok(),
        ShapeType::BigInteger => true,
        _ => false,
    }
}

fn whole<'a>(kind: ShapeType, text: &str) -> Result<Value<'a>, FormError>
    ensures { ReadsWhole kind text.now result }
{
    let Some(number) = written_number(text) else {
        return Err(FormError::NoValue);
    };
    if !is_of_kind(kind, number) {
        return Err(FormError::NoValue);
    }
    Ok(Value::Whole(number))
}

fn decimal<'a>(alloc: Global, text: &str) -> Result<Value<'a>, FormError>
    ensures { (form : Form) → ReadsScalar (scalar scalars.BigDecimal) form text.now result }
{
    let Some(mantissa) = number(coefficient(text.as_bytes())) else {
        return Err(FormError::NoValue);
    };
    let Some(exponent) = net_exponent(text.as_bytes()) else {
        return Err(FormError::NoValue);
    };
    if BigDecimal::from_parts(alloc, mantissa, exponent)?.as_ref() != text {
        return Err(FormError::NoValue);
    }
    Ok(Value::Decimal(mantissa, exponent))
}

fn blob<'a>(alloc: Global, text: &str) -> Result<Value<'a>, FormError>
    ensures { (form : Form) → ReadsScalar (scalar scalars.Blob) form text.now result }
{
    match base64::decode(alloc, text) {
        Ok(bytes) => Ok(Value::Bytes(CowSlice::Owned(bytes))),
        Err(base64::DecodeError::Invalid) => Err(FormError::NoValue),
        Err(base64::DecodeError::NoMemory) => Err(FormError::NoMemory),
    }
}

fn instant<'a>(alloc: Global, text: &str, form: TimestampFormat) -> Result<Value<'a>, FormError>
    ensures { ReadsScalar (scalar scalars.Timestamp) form text.now result }
{
    let format = form.format();
    let Ok(instant) = DateTime::from_str(text, format) else {
        return Err(FormError::NoValue);
    };
    if !instant.holds(format) {
        return Err(FormError::NoValue);
    }
    match instant.fmt(alloc, format) {
        Ok(written) => {
            if written.as_str() == text {
                Ok(Value::Instant(instant))
            } else {
                Err(FormError::NoValue)
            }
        }
        Err(DateTimeFormatError::OutOfRange) => Err(FormError::NoValue),
        Err(DateTimeFormatError::NoMemory) => Err(FormError::NoMemory),
    }
}

fn boolean<'a>(text: &str) -> Result<Value<'a>, FormError>
    ensures { (form : Form) → ReadsScalar (scalar scalars.Boolean) form text.now result }
{
    if text == "true" {
        return Ok(Value::Boolean(true));
    }
    if text == "false" {
        return Ok(Value::Boolean(false));
    }
    Err(FormError::NoValue)
}

/// The scalar of the schema that is written as the text.
pub(crate) fn read_scalar<'a>(
    alloc: Global,
    schema: &Schema<'_>,
    text: &CowStr<'a, Global>,
) -> Result<Value<'a>, FormError>
    requires place { HasNoParts (type_of (kind_at (site_of schema.now))) }
    ensures { ReadsScalar (kind_at (site_of schema.now)) (form_at (site_of schema.now)) (cow_str_bytes text.now) result }
{
    let kind = schema.shape_type();
    let written = text.as_str();
    match kind {
        ShapeType::Boolean => boolean(written),
        ShapeType::Byte => whole(kind, written),
        ShapeType::Short => whole(kind, written),
        ShapeType::Integer => whole(kind, written),
        ShapeType::Long => whole(kind, written),
        ShapeType::BigInteger => whole(kind, written),
        ShapeType::String => Ok(Value::Text(text.clone()?)),
        ShapeType::Blob => blob(alloc, written),
        ShapeType::Timestamp => {
            let form = schema
                .timestamp_format()
                .unwrap_or(TimestampFormat::DateTime);
            instant(alloc, written, form)
        }
        ShapeType::BigDecimal => decimal(alloc, written),
        ShapeType::Document => Err(FormError::NoValue),
        ShapeType::List | ShapeType::Map | ShapeType::Structure | ShapeType::Union =>
            unreachable!(),
    }
}
