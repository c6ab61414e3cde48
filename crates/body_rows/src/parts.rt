//! Rows of headers, of codes of errors, and of metadata.

use crate::answers::{push_headers, push_text};
use crate::errors::split;
use smithy_error_metadata::{Builder, ErrorMetadata};
use smithy_protocol::{Headers, parse_query_compatible_header, sanitize_error_code};
use smithy_rows::{Field, Row};
use std::alloc::{AllocError, Global};

/// What headers are once those of the row are inserted, and what stands under those that it asks for.
pub fn headers(alloc: Global, row: &Row) -> Result<Vec<Field>, AllocError> {
    let mut answers = Vec::new(alloc);
    let mut headers = Headers::new(alloc);
    for field in &row.fields {
        let Ok(text) = str::from_utf8(&field.value) else {
            return Ok(answers);
        };
        match field.word.as_str() {
            "insert" => {
                let (name, value) = split(text);
                headers.insert(name.to_string(alloc)?, value.to_string(alloc)?)?;
            }
            "get" => push_text(alloc, &mut answers, headers.get(text))?,
            _ => {}
        }
    }
    push_headers(alloc, &mut answers, &headers)?;
    Ok(answers)
}

/// What the codes of the row say.
pub fn codes(alloc: Global, row: &Row) -> Result<Vec<Field>, AllocError> {
    let mut answers = Vec::new(alloc);
    if let Some(code) = row.text("sanitize") {
        push_text(alloc, &mut answers, Some(sanitize_error_code(code)))?;
    }
    if let Some(value) = row.text("query-error") {
        match parse_query_compatible_header(value) {
            Some((code, kind)) => {
                push_text(alloc, &mut answers, Some(code))?;
                push_text(alloc, &mut answers, Some(kind))?;
            }
            None => push_text(alloc, &mut answers, None)?,
        }
    }
    Ok(answers)
}

// The metadata with the parts of a row.
fn metadata_of(alloc: Global, row: &Row) -> Result<ErrorMetadata, AllocError> {
    let mut builder = ErrorMetadata::builder();
    for field in &row.fields {
        builder = with_part(alloc, builder, field)?;
    }
    Ok(builder.build())
}

fn with_part(alloc: Global, builder: Builder, field: &Field) -> Result<Builder, AllocError> {
    let Ok(text) = str::from_utf8(&field.value) else {
        return Ok(builder);
    };
    match field.word.as_str() {
        "code" => Ok(builder.code(text.to_string(alloc)?)),
        "message" => Ok(builder.message(text.to_string(alloc)?)),
        "custom" => {
            let (key, value) = split(text);
            builder.custom(alloc, key.to_string(alloc)?, value.to_string(alloc)?)
        }
        _ => Ok(builder),
    }
}

/// The code, the message and the values under the names that the row asks for, of a copy of the metadata with the row's parts.
pub fn metadata(alloc: Global, row: &Row) -> Result<Vec<Field>, AllocError> {
    let mut answers = Vec::new(alloc);
    let metadata = metadata_of(alloc, row)?.clone_in(alloc)?;
    push_text(alloc, &mut answers, metadata.code())?;
    push_text(alloc, &mut answers, metadata.message())?;
    for field in &row.fields {
        if field.word.as_str() == "extra" {
            if let Ok(key) = str::from_utf8(&field.value) {
                push_text(alloc, &mut answers, metadata.extra(key))?;
            }
        }
    }
    Ok(answers)
}
