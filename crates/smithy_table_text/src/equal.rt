//! Whether declarations are equal.
ghost use Rattle.std.specs.Prelude.{◌≡◌, map as list_map, string_bytes, option_map};
ghost use Rattle.std.specs.Cmp.Lexicographic.{pointwise};
ghost use Rattle.smithy_declarations.specs.Decl.{structure, union, list, map};
ghost use Rattle.smithy_declarations.specs.DeclViews.{decl_of, member_decl_of};
ghost use Rattle.smithy_table_text.specs.Parts.{list_of, map_of};
ghost use Rattle.smithy_table_text.specs.Comparing.{same_option, same_flag, same_member, same_members, same_form, same_decl};

use smithy_shapes::{Decl, MemberDecl};

/// Whether the declarations are equal.
pub(crate) fn are_equal(a: &[Decl], b: &[Decl]) -> bool
    ensures { result ≡ pointwise same_decl (list_map decl_of a.now) (list_map decl_of b.now) }
{
    if a.len() != b.len() {
        return false;
    }
    for i in 0..a.len() {
        if !is_equal(&a[i], &b[i]) {
            return false;
        }
    }
    true
}

// The name of a declaration.
fn name(decl: &Decl) -> &str
    ensures { result.now ≡ (decl_of decl.now).name }
{
    match decl {
        Decl::Structure { name, .. } => name.as_str(),
        Decl::Union { name, .. } => name.as_str(),
        Decl::List { name, .. } => name.as_str(),
        Decl::Map { name, .. } => name.as_str(),
    }
}

// Whether two declarations are equal.
fn is_equal(a: &Decl, b: &Decl) -> bool
    ensures { result ≡ same_decl (decl_of a.now) (decl_of b.now) }
{
    name(a) == name(b) && has_equal_form(a, b)
}

// Whether two declarations are equal but for their names.
fn has_equal_form(a: &Decl, b: &Decl) -> bool
    ensures { result ≡ same_form (decl_of a.now).form (decl_of b.now).form }
{
    match a {
        Decl::Structure { members, .. } => is_structure(b, members),
        Decl::Union { members, .. } => is_union(b, members),
        Decl::List {
            target,
            sparse,
            xml,
            time,
            ..
        } => is_list(b, target.as_str(), *sparse, xml, time),
        Decl::Map {
            target,
            sparse,
            key,
            value,
            time,
            ..
        } => is_map(b, target.as_str(), *sparse, key, value, time),
    }
}

// Whether it is a structure of these members.
fn is_structure(decl: &Decl, members: &[MemberDecl]) -> bool
    ensures { result ≡ same_form (structure (list_map member_decl_of members.now)) (decl_of decl.now).form }
{
    match decl {
        Decl::Structure {
            members: others,
            ..
        } => have_equal_members(members, others),
        Decl::Union { .. } => false,
        Decl::List { .. } => false,
        Decl::Map { .. } => false,
    }
}

// Whether it is a union of these members.
fn is_union(decl: &Decl, members: &[MemberDecl]) -> bool
    ensures { result ≡ same_form (union (list_map member_decl_of members.now)) (decl_of decl.now).form }
{
    match decl {
        Decl::Union {
            members: others,
            ..
        } => have_equal_members(members, others),
        Decl::Structure { .. } => false,
        Decl::List { .. } => false,
        Decl::Map { .. } => false,
    }
}

// Whether it is a list of these parts.
fn is_list(
    decl: &Decl,
    target: &str,
    sparse: bool,
    xml: &Option<String>,
    time: &Option<String>,
) -> bool
    ensures { result ≡ same_form (list (list_of target.now sparse xml.now time.now)) (decl_of decl.now).form }
{
    match decl {
        Decl::List {
            target: other,
            sparse: is_sparse,
            xml: name,
            time: form,
            ..
        } => {
            target == other.as_str()
                && is_equal_flag(sparse, *is_sparse)
                && is_equal_option(xml, name)
                && is_equal_option(time, form)
        }
        Decl::Structure { .. } => false,
        Decl::Union { .. } => false,
        Decl::Map { .. } => false,
    }
}

// Whether it is a map of these parts.
fn is_map(
    decl: &Decl,
    target: &str,
    sparse: bool,
    key: &Option<String>,
    value: &Option<String>,
    time: &Option<String>,
) -> bool
    ensures { result ≡ same_form (map (map_of target.now sparse key.now value.now time.now)) (decl_of decl.now).form }
{
    match decl {
        Decl::Map {
            target: other,
            sparse: is_sparse,
            key: key_name,
            value: value_name,
            time: form,
            ..
        } => {
            target == other.as_str()
                && is_equal_flag(sparse, *is_sparse)
                && is_equal_option(key, key_name)
                && is_equal_option(value, value_name)
                && is_equal_option(time, form)
        }
        Decl::Structure { .. } => false,
        Decl::Union { .. } => false,
        Decl::List { .. } => false,
    }
}

// Whether the members are equal.
fn have_equal_members(a: &[MemberDecl], b: &[MemberDecl]) -> bool
    ensures { result ≡ same_members (list_map member_decl_of a.now) (list_map member_decl_of b.now) }
{
    if a.len() != b.len() {
        return false;
    }
    for i in 0..a.len() {
        if !is_equal_member(&a[i], &b[i]) {
            return false;
        }
    }
    true
}

// Whether two members are equal.
fn is_equal_member(a: &MemberDecl, b: &MemberDecl) -> bool
    ensures { result ≡ same_member (member_decl_of a.now) (member_decl_of b.now) }
{
    a.name.as_str() == b.name.as_str()
        && a.target.as_str() == b.target.as_str()
        && is_equal_option(&a.json, &b.json)
        && is_equal_option(&a.xml, &b.xml)
        && is_equal_flag(a.flat, b.flat)
        && is_equal_option(&a.time, &b.time)
}

fn is_equal_flag(a: bool, b: bool) -> bool
    ensures { result ≡ same_flag a b }
{
    if a { b } else { !b }
}

fn is_equal_option(a: &Option<String>, b: &Option<String>) -> bool
    ensures { result ≡ same_option (option_map string_bytes a.now) (option_map string_bytes b.now) }
{
    match a {
        Some(text) => match b {
            Some(other) => text.as_str() == other.as_str(),
            None => false,
        },
        None => match b {
            Some(_) => false,
            None => true,
        },
    }
}
