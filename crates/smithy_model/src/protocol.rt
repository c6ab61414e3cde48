//! The form of a model, and what its protocol asks for.
ghost use Rattle.std.specs.Prelude.{◌≡◌, map, option_map};
ghost use Rattle.json.specs.Value.{value_view};
ghost use Rattle.smithy_model.specs.Reading.{protocol_in, form_of_protocol, form_in, has_protocol, has_rest, has_ec2, has_rpc, has_http_bindings_in, is_ec2_in, is_service_json};
ghost use Rattle.smithy_model.specs.Views.{entry_view, form_view};

use crate::format::Format;
use crate::objects::{has_text, has_trait, inner_text, is_there};
use json::Value;

// The protocol that a `service-2.json` names.
fn protocol<'a>(root: &Value<'a>) -> &'a str
    ensures { result.now ≡ protocol_in (value_view root.now) }
{
    match inner_text(root, "metadata", "protocol") {
        Some(protocol) => protocol,
        None => "",
    }
}

// What the names of a protocol are.
fn format_of_protocol(protocol: &str) -> Format
    ensures { form_view result ≡ form_of_protocol protocol.now }
{
    match protocol {
        "ec2" => Format::Ec2,
        "query" => Format::Xml,
        "rest-xml" => Format::Xml,
        _ => Format::Json,
    }
}

/// The form of a model, whose root has a member `smithy` or `metadata`.
pub(crate) fn format_of(root: &Value<'_>) -> Option<Format>
    ensures { option_map form_view result ≡ form_in (value_view root.now) }
{
    if is_there(root, "smithy") {
        return Some(Format::Smithy);
    }
    if is_there(root, "metadata") {
        return Some(format_of_protocol(protocol(root)));
    }
    None
}

// Whether a service among these has a trait.
fn has_protocol(entries: &[(&str, Value<'_>)], name: &str) -> bool
    ensures { result ≡ has_protocol name.now (map entry_view entries.now) }
{
    for (_, spec) in entries {
        if has_text(spec, "type", "service") && has_trait(spec, name) {
            return true;
        }
    }
    false
}

// Whether a service has a protocol that binds members to other parts of a message.
fn has_rest(entries: &[(&str, Value<'_>)]) -> bool
    ensures { result ≡ has_rest (map entry_view entries.now) }
{
    has_protocol(entries, "aws.protocols#restJson1")
        || has_protocol(entries, "aws.protocols#restXml")
}

// Whether a service has the protocol of EC2.
fn has_ec2(entries: &[(&str, Value<'_>)]) -> bool
    ensures { result ≡ has_ec2 (map entry_view entries.now) }
{
    has_protocol(entries, "aws.protocols#ec2Query")
}

// Whether a service has another protocol that sends all members in the body.
fn has_rpc(entries: &[(&str, Value<'_>)]) -> bool
    ensures { result ≡ has_rpc (map entry_view entries.now) }
{
    has_protocol(entries, "aws.protocols#awsJson1_0")
        || has_protocol(entries, "aws.protocols#awsJson1_1")
        || has_protocol(entries, "aws.protocols#awsQuery")
        || has_protocol(entries, "smithy.protocols#rpcv2Cbor")
}

/// Whether members may travel outside of the body: there is a known protocol, and each known one is `restJson1` or `restXml`. A protocol
/// that isn't known counts as none.
pub(crate) fn has_http_bindings(
    format: Format,
    root: &Value<'_>,
    entries: &[(&str, Value<'_>)],
) -> bool
    ensures { result ≡ has_http_bindings_in (form_view format) (value_view root.now) (map entry_view entries.now) }
{
    match format {
        Format::Smithy => has_rest(entries) && !(has_ec2(entries) || has_rpc(entries)),
        _ => protocol(root) == "rest-json" || protocol(root) == "rest-xml",
    }
}

/// Whether there is a known protocol, and each known one is `ec2Query`.
pub(crate) fn is_ec2(format: Format, root: &Value<'_>, entries: &[(&str, Value<'_>)]) -> bool
    ensures { result ≡ is_ec2_in (form_view format) (value_view root.now) (map entry_view entries.now) }
{
    match format {
        Format::Smithy => has_ec2(entries) && !(has_rest(entries) || has_rpc(entries)),
        _ => protocol(root) == "ec2",
    }
}

/// Whether the model is a `service-2.json`.
pub(crate) fn is_service_json(format: Format) -> bool
    ensures { result ≡ is_service_json (form_view format) }
{
    match format {
        Format::Smithy => false,
        _ => true,
    }
}
