//! The declarations of members.
ghost use Rattle.std.specs.Prelude.{◌≡◌, ◌<◌, length, get_or, true, false, option_map, string_bytes, IfOk};
ghost use Rattle.smithy_model.specs.Views.{model_view, member_view, shape_view};
ghost use Rattle.smithy_model_table.specs.Declaring.{is_flat, has_element_name, xml_name_of, unless_usual, capitalized, ec2_name_of, form_name_of, member_decl};
ghost use Rattle.smithy_model_table.specs.Views.{names_view};
ghost use Rattle.smithy_declarations.specs.DeclViews.{member_decl_of};

use crate::names::Names;
use crate::places::{owned, owned_if, target_of, target_word, time_of, unless_usual};
use smithy_model::{Kind, Member, Model, Shape};
use smithy_shapes::MemberDecl;
use std::alloc::{AllocError, Global};

// Whether the entries of a member stand under its own name: in forms of EC2 those of each list.
fn is_flat(model: &Model<'_>, member: &Member<'_>) -> bool
    ensures { result ≡ is_flat (model_view model.now) (member_view member.now) }
{
    let Some(shape) = target_of(model, member) else {
        return false;
    };
    match &shape.kind {
        Kind::List(_) => model.is_ec2 || member.is_flattened || shape.is_flattened,
        Kind::Map(_) => member.is_flattened || shape.is_flattened,
        _ => false,
    }
}

// Whether a text begins with a character of ASCII.
fn begins_with_ascii(text: &str) -> bool
    ensures ascii { result ≡ true → (0 < length text.now) × (get_or text.now 0 0 < 128) }
    ensures other { result ≡ false → capitalized text.now ≡ text.now }
{
    match text.as_bytes().first() {
        Some(byte) => *byte < 128,
        None => false,
    }
}

// A text with its first letter as a capital.
fn capitalized(alloc: Global, text: &str) -> Result<String, AllocError>
    ensures { IfOk result (λ own. string_bytes own ≡ capitalized text.now) }
{
    if !begins_with_ascii(text) {
        return owned(alloc, text);
    }
    let mut out = text[..1].to_ascii_uppercase(alloc)?;
    out.push_str(&text[1..])?;
    Ok(out)
}

// The name in a form of EC2 (Smithy 2.0, "AWS EC2 query protocol"): `@ec2QueryName`, else `@xmlName` or the name with a
// capital.
fn ec2_name(alloc: Global, member: &Member<'_>) -> Result<Option<String>, AllocError>
    ensures { IfOk result (λ own. option_map string_bytes own ≡ unless_usual (member_view member.now).name (ec2_name_of (member_view member.now))) }
{
    if let Some(name) = member.ec2_name {
        return unless_usual(alloc, member.name, Some(name));
    }
    let given = match member.xml_name {
        Some(name) => capitalized(alloc, name)?,
        None => capitalized(alloc, member.name)?,
    };
    if given.as_str() == member.name {
        return Ok(None);
    }
    Ok(Some(given))
}

// Whether the elements of a list name the entries of a member: in a `service-2.json`, where the list or the member is flattened.
fn has_element_name(model: &Model<'_>, member: &Member<'_>, shape: &Shape<'_>) -> bool
    ensures { result ≡ has_element_name (model_view model.now) (member_view member.now) (shape_view shape.now) }
{
    shape.is_flattened || model.is_service_json && member.is_flattened
}

// The XML name of a member, or the name at the elements of its list.
fn xml_name<'a>(model: &Model<'a>, member: &Member<'a>) -> Option<&'a str>
    ensures { option_map (λ t. t.now) result ≡ xml_name_of (model_view model.now) (member_view member.now) }
{
    let Some(shape) = target_of(model, member) else {
        return member.xml_name;
    };
    let Kind::List(element) = &shape.kind else {
        return member.xml_name;
    };
    if !has_element_name(model, member, shape) {
        return member.xml_name;
    }
    match element.xml_name {
        Some(name) => Some(name),
        None => member.xml_name,
    }
}

// The name of a member in a form, where it isn't the member's own.
fn form_name(
    alloc: Global,
    model: &Model<'_>,
    member: &Member<'_>,
) -> Result<Option<String>, AllocError>
    ensures { IfOk result (λ own. option_map string_bytes own ≡ form_name_of (model_view model.now) (member_view member.now)) }
{
    if model.is_ec2 {
        return ec2_name(alloc, member);
    }
    unless_usual(alloc, member.name, xml_name(model, member))
}

/// The declaration of a member.
pub(crate) fn declare_member<'a>(
    alloc: Global,
    model: &Model<'a>,
    names: &Names<'a>,
    member: &Member<'a>,
) -> Result<MemberDecl, AllocError>
    ensures { IfOk result (λ d. member_decl_of d ≡ member_decl (model_view model.now) (names_view names.now) (member_view member.now)) }
{
    Ok(MemberDecl {
        name: owned(alloc, member.name)?,
        target: owned(alloc, target_word(model, names, member))?,
        json: unless_usual(alloc, member.name, member.json_name)?,
        xml: form_name(alloc, model, member)?,
        flat: is_flat(model, member),
        time: owned_if(alloc, time_of(model, member))?,
    })
}
