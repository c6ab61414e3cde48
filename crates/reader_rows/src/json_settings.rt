//! The settings of JSON, as the lines of a row tell them.

use crate::answers::{push, push_shown};
use crate::places::split;
use smithy_json_codec::{JsonCodec, JsonCodecSettings, JsonCodecSettingsBuilder};
use smithy_rows::{Field, Row};
use smithy_schema::ShapeId;
use smithy_types::Format;
use std::alloc::{AllocError, Global};
use std::borrow::CowStr;

/// The name of a form of instants.
pub fn form_name(form: Format) -> &'static str {
    match form {
        Format::DateTime => "DateTime",
        Format::DateTimeWithOffset => "DateTimeWithOffset",
        Format::HttpDate => "HttpDate",
        Format::EpochSeconds => "EpochSeconds",
    }
}

fn form_of(name: &str) -> Format {
    match name {
        "DateTime" => Format::DateTime,
        "DateTimeWithOffset" => Format::DateTimeWithOffset,
        "HttpDate" => Format::HttpDate,
        _ => Format::EpochSeconds,
    }
}

// What numbers and integers may have.
fn allow(builder: JsonCodecSettingsBuilder, name: &str, value: bool) -> JsonCodecSettingsBuilder {
    match name {
        "allow_integral_float_numbers" => builder.allow_integral_float_numbers(value),
        "allow_leading_zeros" => builder.allow_leading_zeros(value),
        "allow_trailing_decimal_point" => builder.allow_trailing_decimal_point(value),
        _ => builder.allow_empty_integer_part(value),
    }
}

// What is read, beside numbers.
fn read(builder: JsonCodecSettingsBuilder, name: &str, value: bool) -> JsonCodecSettingsBuilder {
    match name {
        "enforce_strictness" => builder.enforce_strictness(value),
        "validate_skipped_values" => builder.validate_skipped_values(value),
        "validate_skipped_string_encoding" => builder.validate_skipped_string_encoding(value),
        _ => builder.strict_timestamp_formats(value),
    }
}

// What is written, names, and nulls.
fn use_or_not(
    builder: JsonCodecSettingsBuilder,
    name: &str,
    value: bool,
) -> JsonCodecSettingsBuilder {
    match name {
        "use_json_name" => builder.use_json_name(value),
        "dispatch_null_members" => builder.dispatch_null_members(value),
        "normalize_arbitrary_precision" => builder.normalize_arbitrary_precision(value),
        _ => builder.use_string_for_arbitrary_precision(value),
    }
}

fn is_switch(value: &str) -> bool {
    value == "true" || value == "false"
}

fn switch(builder: JsonCodecSettingsBuilder, name: &str, value: bool) -> JsonCodecSettingsBuilder {
    if name.starts_with("allow_") {
        return allow(builder, name, value);
    }
    match name {
        "use_json_name" | "dispatch_null_members" => use_or_not(builder, name, value),
        _ if name.ends_with("_arbitrary_precision") => use_or_not(builder, name, value),
        _ => read(builder, name, value),
    }
}

// At most 512 containers may be open.
fn with_depth(builder: JsonCodecSettingsBuilder, value: &str) -> JsonCodecSettingsBuilder {
    let Ok(depth) = value.parse::<u32>() else {
        return builder;
    };
    if depth > 512 {
        return builder;
    }
    builder.max_depth(depth)
}

fn set(
    alloc: Global,
    builder: JsonCodecSettingsBuilder,
    name: &str,
    value: &str,
) -> Result<JsonCodecSettingsBuilder, AllocError> {
    if is_switch(value) {
        return Ok(switch(builder, name, value == "true"));
    }
    match name {
        "max_depth" => Ok(with_depth(builder, value)),
        "default_timestamp_format" => Ok(builder.default_timestamp_format(form_of(value))),
        "default_namespace" => Ok(builder.default_namespace(String::from_str(alloc, value)?)),
        _ => {
            let id = String::from_str(alloc, value)?;
            Ok(builder.protocol_id(ShapeId::new(CowStr::Owned(id))))
        }
    }
}

/// The settings that the lines `set NAME VALUE` of a row make.
pub fn json_settings(alloc: Global, row: &Row) -> Result<JsonCodecSettings, AllocError> {
    let mut builder = JsonCodecSettings::builder();
    for field in &row.fields {
        if field.word.as_str() == "set" {
            let (name, value) = split(str::from_utf8(&field.value).unwrap_or(""));
            builder = set(alloc, builder, name, value)?;
        }
    }
    Ok(builder.build())
}

/// The codec under the settings that a row names, or a strict one where it names none.
pub fn json_codec(alloc: Global, row: &Row, use_json_name: bool) -> Result<JsonCodec, AllocError> {
    if row.text("set").is_none() {
        return Ok(JsonCodec::strict(use_json_name));
    }
    Ok(JsonCodec::new(json_settings(alloc, row)?))
}

// What four of the settings are.
fn push_switches(
    alloc: Global,
    settings: &JsonCodecSettings,
    answers: &mut Vec<Field>,
) -> Result<(), AllocError> {
    push_shown(alloc, answers, "kept", settings.dispatch_null_members())?;
    push_shown(alloc, answers, "kept", settings.strict_timestamp_formats())?;
    push_shown(
        alloc,
        answers,
        "kept",
        settings.use_string_for_arbitrary_precision(),
    )?;
    push_shown(
        alloc,
        answers,
        "kept",
        settings.normalize_arbitrary_precision(),
    )
}

// What the four others are that settings tell.
fn push_values(
    alloc: Global,
    settings: &JsonCodecSettings,
    answers: &mut Vec<Field>,
) -> Result<(), AllocError> {
    let form = form_name(settings.default_timestamp_format());
    push(alloc, answers, "kept", form.as_bytes())?;
    push_shown(alloc, answers, "kept", settings.max_depth())?;
    push(alloc, answers, "kept", settings.protocol_id().as_bytes())?;
    let namespace = settings.default_namespace().unwrap_or("none");
    push(alloc, answers, "kept", namespace.as_bytes())
}

/// What settings tell that a row makes, after they were taken into a builder, built and copied.
pub fn answers(alloc: Global, row: &Row) -> Result<Vec<Field>, AllocError> {
    let made = json_settings(alloc, row)?;
    let settings = made.to_builder(alloc)?.build().clone_in(alloc)?;
    let mut answers = Vec::new(alloc);
    push_switches(alloc, &settings, &mut answers)?;
    push_values(alloc, &settings, &mut answers)?;
    Ok(answers)
}
