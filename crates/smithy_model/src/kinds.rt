//! What a shape is, by its type.
ghost use Rattle.std.specs.Prelude.{◌≡◌, option_map, IfOk, codes};
ghost use Rattle.smithy_model.specs.Model.{list};
ghost use Rattle.smithy_model.specs.Members.{part_in};
ghost use Rattle.json.specs.Value.{value_view};
ghost use Rattle.smithy_model.specs.Kinds.{number_name, simple_name, is_event_stream, is_union, is_document, structure_in, map_in, aggregate_in, kind_of_type, kind_in};
ghost use Rattle.smithy_model.specs.Views.{kind_view, form_view};

use crate::format::Format;
use crate::members::{read_members, read_part};
use crate::model::{Entry, Kind};
use crate::objects::{has_trait, is_set, text};
use json::Value;
use std::alloc::{AllocError, Global};

// The name in a table of a type of numbers but floats.
fn number_name(kind: &str) -> Option<&'static str>
    ensures { option_map (λ t. t.now) result ≡ number_name kind.now }
{
    match kind {
        "byte" => Some("byte"),
        "short" => Some("short"),
        "integer" | "intEnum" => Some("integer"),
        "long" => Some("long"),
        "bigInteger" => Some("bigInteger"),
        "bigDecimal" => Some("bigDecimal"),
        _ => None,
    }
}

// The name in a table of a type of scalars but floats, or of documents.
fn simple_name(kind: &str) -> Option<&'static str>
    ensures { option_map (λ t. t.now) result ≡ simple_name kind.now }
{
    match kind {
        "boolean" => Some("boolean"),
        "string" | "enum" | "character" => Some("string"),
        "blob" => Some("blob"),
        "timestamp" => Some("timestamp"),
        "document" => Some("document"),
        _ => number_name(kind),
    }
}

// A stream of events: in a Smithy model a union that is streamed.
fn is_event_stream(format: Format, kind: &str, spec: &Value<'_>) -> bool
    ensures { result ≡ is_event_stream (form_view format) kind.now (value_view spec.now) }
{
    match format {
        Format::Smithy => kind == "union" && has_trait(spec, "smithy.api#streaming"),
        _ => is_set(spec, "eventstream"),
    }
}

// A union: in a `service-2.json` a structure that is marked as one.
fn is_union(format: Format, kind: &str, spec: &Value<'_>) -> bool
    ensures { result ≡ is_union (form_view format) kind.now (value_view spec.now) }
{
    match format {
        Format::Smithy => kind == "union",
        _ => is_set(spec, "union"),
    }
}

// A document: in a `service-2.json` a structure that is marked as one.
fn is_document(format: Format, spec: &Value<'_>) -> bool
    ensures { result ≡ is_document (form_view format) (value_view spec.now) }
{
    match format {
        Format::Smithy => false,
        _ => is_set(spec, "document"),
    }
}

// What a structure or a union is.
fn read_structure<'a>(
    alloc: Global,
    format: Format,
    kind: &str,
    spec: &Value<'a>,
) -> Result<Option<Kind<'a>>, AllocError>
    ensures { IfOk result (λ read. option_map kind_view read ≡ structure_in (form_view format) kind.now (value_view spec.now)) }
{
    if is_document(format, spec) {
        return Ok(Some(Kind::Simple("document")));
    }
    if is_event_stream(format, kind, spec) {
        return Ok(Some(Kind::EventStream));
    }
    let Some(members) = read_members(alloc, format, spec)? else {
        return Ok(None);
    };
    if is_union(format, kind, spec) {
        return Ok(Some(Kind::Union(members)));
    }
    Ok(Some(Kind::Structure(members)))
}

// What a list is.
fn read_list<'a>(format: Format, spec: &Value<'a>) -> Option<Kind<'a>>
    ensures { option_map kind_view result ≡ option_map list (part_in (form_view format) (codes "member") (value_view spec.now)) }
{
    Some(Kind::List(read_part(format, spec, "member")?))
}

// What a map is.
fn read_map<'a>(format: Format, spec: &Value<'a>) -> Option<Kind<'a>>
    ensures { option_map kind_view result ≡ map_in (form_view format) (value_view spec.now) }
{
    let key = read_part(format, spec, "key")?;
    let value = read_part(format, spec, "value")?;
    Some(Kind::Map(Entry { key, value }))
}

// What a shape of a type is that is no scalar.
fn read_aggregate<'a>(
    alloc: Global,
    format: Format,
    kind: &str,
    spec: &Value<'a>,
) -> Result<Option<Kind<'a>>, AllocError>
    ensures { IfOk result (λ read. option_map kind_view read ≡ aggregate_in (form_view format) kind.now (value_view spec.now)) }
{
    match kind {
        "float" | "double" => Ok(Some(Kind::Float)),
        "structure" | "union" => read_structure(alloc, format, kind, spec),
        "list" | "set" => Ok(read_list(format, spec)),
        "map" => Ok(read_map(format, spec)),
        _ => Ok(None),
    }
}

/// What a shape is: none where its type isn't known, or a part of it is missing or without a target.
pub(crate) fn read_kind<'a>(
    alloc: Global,
    format: Format,
    spec: &Value<'a>,
) -> Result<Option<Kind<'a>>, AllocError>
    ensures { IfOk result (λ read. option_map kind_view read ≡ kind_in (form_view format) (value_view spec.now)) }
{
    let Some(kind) = text(spec, "type") else {
        return Ok(None);
    };
    match simple_name(kind) {
        Some(name) => Ok(Some(Kind::Simple(name))),
        None => read_aggregate(alloc, format, kind, spec),
    }
}
