//! The target, the time form and the names of a place.
ghost use Rattle.std.specs.Prelude.{◌≡◌, option_map, option_and_then, string_bytes, slice_get, IfOk};
ghost use Rattle.smithy_model.specs.Views.{model_view, member_view, shape_view, kind_view};
ghost use Rattle.smithy_model_table.specs.Declaring.{unless_usual, target_of, target_word, word_of_kind, is_timestamp, time_of, part_name};
ghost use Rattle.smithy_model_table.specs.Views.{names_view};

use crate::names::Names;
use smithy_model::{Kind, Member, Model, Shape};
use std::alloc::{AllocError, Global};

/// A text of its own.
pub(crate) fn owned(alloc: Global, text: &str) -> Result<String, AllocError>
    ensures { IfOk result (λ own. string_bytes own ≡ text.now) }
{
    let mut own = String::new(alloc);
    own.push_str(text)?;
    Ok(own)
}

/// A text of its own, where one is given.
pub(crate) fn owned_if(alloc: Global, given: Option<&str>) -> Result<Option<String>, AllocError>
    ensures { IfOk result (λ own. option_map string_bytes own ≡ option_map (λ t. t.now) given.entry) }
{
    match given {
        Some(text) => Ok(Some(owned(alloc, text)?)),
        None => Ok(None),
    }
}

/// A text of its own, where one is given that isn't the usual one.
pub(crate) fn unless_usual(
    alloc: Global,
    usual: &str,
    given: Option<&str>,
) -> Result<Option<String>, AllocError>
    ensures { IfOk result (λ own. option_map string_bytes own ≡ option_and_then (unless_usual usual.now) (option_map (λ t. t.now) given.entry)) }
{
    match given {
        Some(text) => {
            if text == usual {
                return Ok(None);
            }
            Ok(Some(owned(alloc, text)?))
        }
        None => Ok(None),
    }
}

/// The shape of this number.
pub(crate) fn shape_at<'m, 'a>(model: &'m Model<'a>, number: usize) -> Option<&'m Shape<'a>>
    ensures { option_map (λ s. shape_view s.now) result ≡ slice_get (model_view model.now).shapes number }
{
    model.shapes.get(number)
}

/// The shape that is the target of a member.
pub(crate) fn target_of<'m, 'a>(model: &'m Model<'a>, member: &Member<'a>) -> Option<&'m Shape<'a>>
    ensures { option_map (λ s. shape_view s.now) result ≡ target_of (model_view model.now) (member_view member.now) }
{
    shape_at(model, member.number)
}

// The word of a kind, or the name.
fn word_of_kind<'a>(kind: &Kind<'a>, name: &'a str) -> &'a str
    ensures { result.now ≡ word_of_kind (kind_view kind.now) name.now }
{
    match kind {
        Kind::Simple(word) => word,
        _ => name,
    }
}

/// The word of a member's target: a scalar's or a document's, or the name of its shape.
pub(crate) fn target_word<'a>(model: &Model<'a>, names: &Names<'a>, member: &Member<'a>) -> &'a str
    ensures { result.now ≡ target_word (model_view model.now) (names_view names.now) (member_view member.now) }
{
    match target_of(model, member) {
        Some(shape) => word_of_kind(&shape.kind, names.name(member.number)),
        None => member.target,
    }
}

// Whether a shape is a timestamp.
fn is_timestamp(kind: &Kind<'_>) -> bool
    ensures { result ≡ is_timestamp (kind_view kind.now) }
{
    match kind {
        Kind::Simple(word) => *word == "timestamp",
        _ => false,
    }
}

/// The form of instants at a member: its own before that of its target.
pub(crate) fn time_of<'a>(model: &Model<'a>, member: &Member<'a>) -> Option<&'a str>
    ensures { option_map (λ t. t.now) result ≡ time_of (model_view model.now) (member_view member.now) }
{
    let shape = target_of(model, member)?;
    if !is_timestamp(&shape.kind) {
        return None;
    }
    match member.time_format {
        Some(form) => Some(form),
        None => shape.time_format,
    }
}

/// The name of a list's elements, or of a map's keys or values, where it isn't the usual one. A form of EC2 has none.
pub(crate) fn part_name(
    alloc: Global,
    model: &Model<'_>,
    usual: &str,
    part: &Member<'_>,
) -> Result<Option<String>, AllocError>
    ensures { IfOk result (λ own. option_map string_bytes own ≡ part_name (model_view model.now) usual.now (member_view part.now)) }
{
    if model.is_ec2 {
        return Ok(None);
    }
    unless_usual(alloc, usual, part.xml_name)
}
