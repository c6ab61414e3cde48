//! The names of members, elements, keys and values in a form.
ghost use Rattle.std.specs.Prelude.{◌≡◌, option_map, unwrap_or};
ghost use Rattle.smithy_shapes.specs.Site.{site_of};
ghost use Rattle.smithy_query_codec.specs.Leaves.{query_name as name_in_form, role_of};
ghost use Rattle.smithy_form.specs.Private.Names.{is_flat as is_role_of_flat, is_member as is_role_of_member};

use smithy_schema::Schema;

/// The name of a member in a form: none where the schema is no member's.
pub(crate) fn query_name<'a>(schema: &Schema<'a>) -> Option<&'a str>
    ensures { option_map (λ s. s.now) result ≡ name_in_form (site_of schema.now).view }
{
    let name = schema.member_name()?;
    match schema.xml_name() {
        Some(xml_name) => Some(xml_name),
        None => Some(name),
    }
}

/// The name of a list's elements, or of a map's keys or values, in a form, where `plain` is the one that counts if none is given.
pub(crate) fn part_name<'a>(part: &Schema<'a>, plain: &'a str) -> &'a str
    ensures { result.now ≡ unwrap_or (site_of part.now).view.xml_name plain.now }
{
    match part.xml_name() {
        Some(name) => name,
        None => plain,
    }
}

/// The value is that of a member.
pub(crate) fn is_member(schema: &Schema<'_>) -> bool
    ensures { result ≡ is_role_of_member (role_of (site_of schema.now).view) }
{
    schema.member_name().is_some()
}

/// The value is that of a flat member: its parts are under the member's own name.
pub(crate) fn is_flat(schema: &Schema<'_>) -> bool
    ensures { result ≡ is_role_of_flat (role_of (site_of schema.now).view) }
{
    is_member(schema) && schema.xml_flattened()
}
