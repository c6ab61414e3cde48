//! A whole form.
ghost use Rattle.std.specs.Prelude.{◌≡◌, map};
ghost use Rattle.smithy_declarations.specs.Table.{IsStructure, kind_of, shape_place};
ghost use Rattle.smithy_shapes.specs.Accepted.{IsAccepted};
ghost use Rattle.smithy_shapes.specs.Site.{site_of, kind_at};
ghost use Rattle.smithy_query_codec.specs.Leaves.{role_of, neither};
ghost use Rattle.smithy_form.specs.ReadsForm.{ReadsForm};
ghost use Rattle.smithy_form.specs.Private.Kept.{named_text};
ghost use Rattle.smithy_form.specs.Private.Order.{AreNumbered};
ghost use Rattle.smithy_form.specs.Private.FormParts.{FindsParts, ReadsValue};

use crate::error::FormError;
use crate::pairs::Pair;
use crate::pieces::pairs_of;
use crate::reading::read_structure;
use crate::sorting::sort_pairs;
use smithy_schema::{Schema, ShapeRef, Shapes};
use smithy_value::Value;
use std::alloc::Global;
use std::borrow::CowStr;

/// How deep the containers of a value may nest.
const MAX_DEPTH: u32 = 128;

/// A form that was read. Its texts borrow from the input where nothing in them was decoded.
#[derive(Debug, Drop)]
pub struct Form<'a> {
    /// The text of the first pair, `Action`.
    pub action: CowStr<'a, Global>,
    /// The text of the second pair, `Version`.
    pub version: CowStr<'a, Global>,
    /// The value that the other pairs are.
    pub value: Value<'a>,
}

/// A form whose value isn't read yet.
#[derive(Drop)]
pub(crate) struct Parts<'a> {
    pub(crate) action: CowStr<'a, Global>,
    pub(crate) version: CowStr<'a, Global>,
    pub(crate) pairs: Vec<Pair<'a>>,
}

/// Reads a form as a value of the root, which is a structure of the table. Texts that hold no `%` and no `+` borrow from the input.
///
/// The pairs after the first two may come in any order. What is read takes memory by the pairs that are there, and not by the numbers in
/// their names.
pub fn read_form<'a>(
    alloc: Global,
    shapes: &Shapes,
    root: ShapeRef,
    input: &'a [u8],
) -> Result<Form<'a>, FormError>
    requires root { IsStructure (kind_of shapes.now (shape_place root.0)) }
    ensures { ReadsForm shapes.now root.0 input.now result }
{
    let schema = shapes.schema(root);
    let pairs = pairs_of(alloc, input)?;
    let Some(parts) = parts_of(pairs) else {
        return Err(FormError::NotForm);
    };
    let Parts {
        action,
        version,
        mut pairs,
    } = parts;
    let value = read_pairs(alloc, &schema, &mut pairs)?;
    Ok(Form {
        action,
        version,
        value,
    })
}

// The parts of a form, if these pairs are one.
fn parts_of<'a>(mut pairs: Vec<Pair<'a>>) -> Option<Parts<'a>>
    requires numbered { AreNumbered 1 pairs.items }
    ensures { FindsParts pairs.entry.items result }
{
    if pairs.len() < 2 {
        return None;
    }
    let action = pairs.remove(0);
    let version = pairs.remove(0);
    if action.name.as_str() != "Action" || version.name.as_str() != "Version" {
        return None;
    }
    Some(Parts {
        action: text_of(action),
        version: text_of(version),
        pairs,
    })
}

// The text of a pair.
fn text_of<'a>(pair: Pair<'a>) -> CowStr<'a, Global>
    ensures { result ≡ pair.entry.text }
{
    pair.text
}

// The value of the schema that pairs are, which are counted from 3.
fn read_pairs<'a>(
    alloc: Global,
    schema: &Schema<'_>,
    pairs: &mut [Pair<'a>],
) -> Result<Value<'a>, FormError>
    requires place { IsStructure (kind_at (site_of schema.now)) }
    requires accepted { IsAccepted (site_of schema.now).table }
    requires nameless { role_of (site_of schema.now).view ≡ neither }
    requires numbered { AreNumbered 3 pairs.old }
    ensures { ReadsValue (site_of schema.now) (map named_text pairs.old) result }
{
    sort_pairs(alloc, pairs)?;
    read_structure(alloc, schema, pairs, 0, MAX_DEPTH)
}
