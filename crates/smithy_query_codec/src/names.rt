//! The names of members, elements, keys and values in a form.
ghost use Rattle.std.specs.Prelude.{◌≡◌, option_map};
ghost use Rattle.smithy_shapes.specs.Site.{site_of};
ghost use Rattle.smithy_query_codec.specs.Leaves.{query_name as name_in_form, element_name as element_name_in_form, key_name as key_name_in_form, value_name as value_name_in_form};

use smithy_schema::{Schema, ShapeType};

// The name of a member in a form.
pub(crate) fn query_name<'a>(schema: &Schema<'a>) -> Option<&'a str>
    ensures { option_map (λ s. s.now) result ≡ name_in_form (site_of schema.now).view }
{
    let name = schema.member_name()?;
    match schema.xml_name() {
        Some(xml_name) => Some(xml_name),
        None => Some(name),
    }
}

// The name of a list's elements in a form.
pub(crate) fn element_name<'a>(schema: &Schema<'a>) -> &'a str
    ensures { result.now ≡ element_name_in_form (site_of schema.now) }
{
    if !matches!(schema.shape_type(), ShapeType::List) {
        return "member";
    }
    let Some(element) = schema.member() else {
        return "member";
    };
    match element.xml_name() {
        Some(name) => name,
        None => "member",
    }
}

// The name of a map's keys in a form.
pub(crate) fn key_name<'a>(schema: &Schema<'a>) -> &'a str
    ensures { result.now ≡ key_name_in_form (site_of schema.now) }
{
    let Some(key) = schema.key() else {
        return "key";
    };
    match key.xml_name() {
        Some(name) => name,
        None => "key",
    }
}

// The name of a map's values in a form.
pub(crate) fn value_name<'a>(schema: &Schema<'a>) -> &'a str
    ensures { result.now ≡ value_name_in_form (site_of schema.now) }
{
    if !matches!(schema.shape_type(), ShapeType::Map) {
        return "value";
    }
    let Some(value) = schema.member() else {
        return "value";
    };
    match value.xml_name() {
        Some(name) => name,
        None => "value",
    }
}
