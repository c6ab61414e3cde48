//! Members: of structures and unions, of lists and of maps.
ghost use Rattle.std.specs.Prelude.{◌≡◌, None, Some, map, option_map, IfOk};
ghost use Rattle.json.specs.Value.{value_view};
ghost use Rattle.smithy_model.specs.Members.{is_in_headers, is_in_request_line, is_in_status_line, smithy_member, service_time, service_member, member_in, part_in, members_in};
ghost use Rattle.smithy_model.specs.Views.{member_view, form_view};

use crate::format::Format;
use crate::model::Member;
use crate::objects::{entries, has_text, has_trait, is_no_object, is_set, text, trait_text};
use json::Value;
use std::alloc::{AllocError, Global};

// Whether a member is bound to headers.
fn is_in_headers(format: Format, spec: &Value<'_>) -> bool
    ensures { result ≡ is_in_headers (form_view format) (value_view spec.now) }
{
    match format {
        Format::Smithy => {
            has_trait(spec, "smithy.api#httpHeader")
                || has_trait(spec, "smithy.api#httpPrefixHeaders")
        }
        _ => has_text(spec, "location", "header") || has_text(spec, "location", "headers"),
    }
}

// Whether a member is bound to the path or the query.
fn is_in_request_line(format: Format, spec: &Value<'_>) -> bool
    ensures { result ≡ is_in_request_line (form_view format) (value_view spec.now) }
{
    match format {
        Format::Smithy => {
            has_trait(spec, "smithy.api#httpLabel")
                || has_trait(spec, "smithy.api#httpQuery")
                || has_trait(spec, "smithy.api#httpQueryParams")
        }
        _ => has_text(spec, "location", "uri") || has_text(spec, "location", "querystring"),
    }
}

// Whether a member is bound to the status code.
fn is_in_status_line(format: Format, spec: &Value<'_>) -> bool
    ensures { result ≡ is_in_status_line (form_view format) (value_view spec.now) }
{
    match format {
        Format::Smithy => has_trait(spec, "smithy.api#httpResponseCode"),
        _ => has_text(spec, "location", "statusCode"),
    }
}

// A member of a Smithy model, with its traits.
fn smithy_member<'a>(name: &'a str, spec: &Value<'a>) -> Option<Member<'a>>
    ensures { option_map member_view result ≡ smithy_member name.now (value_view spec.now) }
{
    Some(Member {
        name,
        target: text(spec, "target")?,
        number: 0,
        json_name: trait_text(spec, "smithy.api#jsonName"),
        xml_name: trait_text(spec, "smithy.api#xmlName"),
        ec2_name: trait_text(spec, "aws.protocols#ec2QueryName"),
        is_flattened: has_trait(spec, "smithy.api#xmlFlattened"),
        time_format: trait_text(spec, "smithy.api#timestampFormat"),
        in_headers: is_in_headers(Format::Smithy, spec),
        in_request_line: is_in_request_line(Format::Smithy, spec),
        in_status_line: is_in_status_line(Format::Smithy, spec),
        is_payload: has_trait(spec, "smithy.api#httpPayload"),
    })
}

/// The time format that a `service-2.json` names, by its name in Smithy.
pub(crate) fn service_time<'a>(spec: &Value<'a>) -> Option<&'a str>
    ensures { option_map (λ t. t.now) result ≡ service_time (value_view spec.now) }
{
    match text(spec, "timestampFormat")? {
        "iso8601" => Some("date-time"),
        "rfc822" => Some("http-date"),
        "unixTimestamp" | "unixtimestamp" => Some("epoch-seconds"),
        given => Some(given),
    }
}

// A member of a `service-2.json`. Its `locationName` is the name that its protocol uses, and its structure may name it as the payload.
fn service_member<'a>(
    format: Format,
    outer: &Value<'a>,
    name: &'a str,
    spec: &Value<'a>,
) -> Option<Member<'a>>
    ensures { option_map member_view result ≡ service_member (form_view format) (value_view outer.now) name.now (value_view spec.now) }
{
    let given = text(spec, "locationName");
    let (json_name, xml_name, ec2_name) = match format {
        Format::Smithy => (None, None, None),
        Format::Json => (given, None, None),
        Format::Xml => (None, given, None),
        Format::Ec2 => (None, given, text(spec, "queryName")),
    };
    Some(Member {
        name,
        target: text(spec, "shape")?,
        number: 0,
        json_name,
        xml_name,
        ec2_name,
        is_flattened: is_set(spec, "flattened"),
        time_format: service_time(spec),
        in_headers: is_in_headers(format, spec),
        in_request_line: is_in_request_line(format, spec),
        in_status_line: is_in_status_line(format, spec),
        is_payload: has_text(outer, "payload", name),
    })
}

// A member of this name: none without a target.
fn read_member<'a>(
    format: Format,
    outer: &Value<'a>,
    name: &'a str,
    spec: &Value<'a>,
) -> Option<Member<'a>>
    ensures { option_map member_view result ≡ member_in (form_view format) (value_view outer.now) name.now (value_view spec.now) }
{
    match format {
        Format::Smithy => smithy_member(name, spec),
        Format::Json => service_member(format, outer, name, spec),
        Format::Xml => service_member(format, outer, name, spec),
        Format::Ec2 => service_member(format, outer, name, spec),
    }
}

/// The member of a list, or the key or the value of a map: none where it isn't there or has no target.
pub(crate) fn read_part<'a>(
    format: Format,
    spec: &Value<'a>,
    name: &'static str,
) -> Option<Member<'a>>
    ensures { option_map member_view result ≡ part_in (form_view format) name.now (value_view spec.now) }
{
    read_member(format, spec, name, spec.get(name)?)
}

/// The members of a structure or a union, in the model's order: none where one of them has no target, or where they are no object.
pub(crate) fn read_members<'a>(
    alloc: Global,
    format: Format,
    spec: &Value<'a>,
) -> Result<Option<Vec<Member<'a>>>, AllocError>
    ensures { IfOk result (λ members. option_map (λ ms. map member_view ms.items) members ≡ members_in (form_view format) (value_view spec.now)) }
{
    if is_no_object(spec, "members") {
        return Ok(None);
    }
    let Some(entries) = entries(spec, "members") else {
        return Ok(Some(Vec::new(alloc)));
    };
    let mut members = Vec::with_capacity(alloc, entries.len())?;
    for (name, part) in entries {
        match read_member(format, spec, *name, part) {
            Some(member) => members.push(member)?,
            None => return Ok(None),
        }
    }
    Ok(Some(members))
}
