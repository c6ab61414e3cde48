//! Looking into JSON values by the names of their members.
ghost use Rattle.std.specs.Prelude.{◌≡◌, [], map, option_map, unwrap_or};
ghost use Rattle.smithy_model.specs.Objects.{text_in, has_text, is_there, is_set, entries, entries_in, items, items_in, is_no_object, is_no_array, trait_text, has_trait, inner_text};
ghost use Rattle.smithy_model.specs.Views.{entry_view};
ghost use Rattle.json.specs.Value.{value_view};

use json::Value;

/// The member of this name, where it is a text.
pub(crate) fn text<'a>(spec: &Value<'a>, name: &str) -> Option<&'a str>
    ensures { option_map (λ t. t.now) result ≡ text_in name.now (value_view spec.now) }
{
    spec.get(name)?.as_str()
}

/// Whether the member of this name is this text.
pub(crate) fn has_text(spec: &Value<'_>, name: &str, wanted: &str) -> bool
    ensures { result ≡ has_text name.now wanted.now (value_view spec.now) }
{
    match text(spec, name) {
        Some(given) => given == wanted,
        None => false,
    }
}

/// Whether there is a member of this name.
pub(crate) fn is_there(spec: &Value<'_>, name: &str) -> bool
    ensures { result ≡ is_there name.now (value_view spec.now) }
{
    spec.get(name).is_some()
}

/// Whether the member of this name is `true`.
pub(crate) fn is_set(spec: &Value<'_>, name: &str) -> bool
    ensures { result ≡ is_set name.now (value_view spec.now) }
{
    match spec.get(name) {
        Some(value) => value.as_bool().unwrap_or(false),
        None => false,
    }
}

/// The members of an object, in order.
fn entries_of<'v, 'a>(spec: &'v Value<'a>) -> Option<&'v [(&'a str, Value<'a>)]>
    ensures { option_map (λ es. map entry_view es.now) result ≡ entries (value_view spec.now) }
{
    match spec {
        Value::Object(members) => Some(members.as_slice()),
        _ => None,
    }
}

/// The members of the member of this name, where it is an object.
pub(crate) fn entries<'v, 'a>(spec: &'v Value<'a>, name: &str) -> Option<&'v [(&'a str, Value<'a>)]>
    ensures { option_map (λ es. map entry_view es.now) result ≡ entries_in name.now (value_view spec.now) }
{
    entries_of(spec.get(name)?)
}

// The items of an array.
fn items_of<'v, 'a>(spec: &'v Value<'a>) -> Option<&'v [Value<'a>]>
    ensures { option_map (λ vs. map value_view vs.now) result ≡ items (value_view spec.now) }
{
    match spec {
        Value::Array(items) => Some(items.as_slice()),
        _ => None,
    }
}

/// The items of the member of this name, where it is an array.
pub(crate) fn items<'v, 'a>(spec: &'v Value<'a>, name: &str) -> Option<&'v [Value<'a>]>
    ensures { option_map (λ vs. map value_view vs.now) result ≡ items_in name.now (value_view spec.now) }
{
    items_of(spec.get(name)?)
}

/// Whether there is a member of this name, and it is no object.
pub(crate) fn is_no_object(spec: &Value<'_>, name: &str) -> bool
    ensures { result ≡ is_no_object name.now (value_view spec.now) }
{
    is_there(spec, name) && entries(spec, name).is_none()
}

/// Whether there is a member of this name, and it is no array.
pub(crate) fn is_no_array(spec: &Value<'_>, name: &str) -> bool
    ensures { result ≡ is_no_array name.now (value_view spec.now) }
{
    is_there(spec, name) && items(spec, name).is_none()
}

/// The text of a trait (Smithy 2.0, "JSON AST").
pub(crate) fn trait_text<'a>(spec: &Value<'a>, name: &str) -> Option<&'a str>
    ensures { option_map (λ t. t.now) result ≡ trait_text name.now (value_view spec.now) }
{
    text(spec.get("traits")?, name)
}

/// Whether a trait is given.
pub(crate) fn has_trait(spec: &Value<'_>, name: &str) -> bool
    ensures { result ≡ has_trait name.now (value_view spec.now) }
{
    match spec.get("traits") {
        Some(traits) => is_there(traits, name),
        None => false,
    }
}

/// The text under `key` in the member of this name.
pub(crate) fn inner_text<'a>(spec: &Value<'a>, name: &str, key: &str) -> Option<&'a str>
    ensures { option_map (λ t. t.now) result ≡ inner_text name.now key.now (value_view spec.now) }
{
    text(spec.get(name)?, key)
}
