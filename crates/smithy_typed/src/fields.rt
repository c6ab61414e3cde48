//! The fields of a structure, one type inside another, so that what holds of one more field is proved once.
ghost use Rattle.std.specs.Prelude.{◌≡◌, ◌≤◌, ◌+◌, ◌↔◌, ◌⊎◌, ℕ, List, [], ◌∷◌, map, length, Option, option_map, true, false, IsTrue};
ghost use Rattle.smithy_declarations.specs.Value.{Value, no_member_values};
ghost use Rattle.smithy_shapes.specs.Site.{Site, site_of, member_of};
ghost use Rattle.smithy_shapes.specs.MembersLeft.{members_left};
ghost use Rattle.smithy_schema.specs.Fields.{members_at, field_events};
ghost use Rattle.smithy_schema.specs.Writing.{open_structure, member_events};
ghost use Rattle.smithy_schema.specs.Written.{IsInside, AddsInside};
ghost use Rattle.smithy_typed.specs.Places.{IsAnyMemberAt, named_first, named_none};
ghost use Rattle.smithy_typed.specs.Values.{SetsField};

use crate::typed::Typed;
use smithy_schema::{Members, Schema, SerdeError, ShapeDeserializer, ShapeSerializer};

/// The fields of a structure from one of its members on, an optional value for each.
pub trait FieldList {
    // The members' values.
    ghost fields: { Self → List (Option Value) };

    // The members, each at a place of its field's type, by their names.
    ghost members: { List (List ℕ) → List Site → Type 0 };

    /// Fields that aren't there.
    fn none() -> Self
    where
        Self: Sized,
        ensures { (n : ℕ) → members_at n (fields result) ≡ no_member_values };

    /// Whether the members that are left have these names, and are at places of the fields.
    fn are_at(left: Members<'_>, names: &[&str]) -> bool
        ensures { IsTrue result ↔ members (map (λ n. n.now) names.now) (members_left left.entry) };

    /// Reads the member that is due into the field at its position. Past the last field nothing is read.
    fn read_field<D: ShapeDeserializer>(
        &mut self,
        source: &mut D,
        member: &Schema<'_>,
        position: u32,
    ) -> Result<(), SerdeError>
        requires due { (D.state source.old).due ≡ true }
        requires nulls { D.dispatches_nulls (D.settings source.old) ≡ false }
        requires there { IsAnyMemberAt members position (site_of member.now) ⊎ (length (fields self.old) ≤ position) }
        ensures same { D.settings source.new ≡ D.settings source.old }
        ensures reads { IsAnyMemberAt members position (site_of member.now) → SetsField (D.reading (D.settings source.old)).wire (fields self.old) (fields self.new) position (site_of member.now) (D.state source.old) (D.state source.new) result };
}

/// A field, and the fields after it.
#[derive(Drop)]
pub struct Field<T, R> {
    /// Its value, if it is there.
    pub value: Option<T>,
    /// Those after it.
    pub rest: R,
}

/// The end of a list of fields.
#[derive(Clone, Copy)]
pub struct NoField;

impl FieldList for NoField {
    ghost fields = { λ _. [] };

    ghost members = { named_none };

    fn none() -> NoField {
        NoField
    }

    fn are_at(left: Members<'_>, names: &[&str]) -> bool {
        let mut left = left;
        names.is_empty() && left.next().is_none()
    }

    fn read_field<D: ShapeDeserializer>(
        &mut self,
        _source: &mut D,
        _member: &Schema<'_>,
        _position: u32,
    ) -> Result<(), SerdeError> {
        Ok(())
    }
}

impl<T: Typed + Drop, R: FieldList + Drop> FieldList for Field<T, R> {
    ghost fields = { λ f. option_map T.value f.value ∷ R.fields f.rest };

    ghost members = { named_first T.place R.members };

    fn none() -> Field<T, R> {
        Field {
            value: None,
            rest: R::none(),
        }
    }

    fn are_at(left: Members<'_>, names: &[&str]) -> bool {
        let mut left = left;
        let Some((name, names)) = names.split_first() else {
            return false;
        };
        let Some(member) = left.next() else {
            return false;
        };
        if !is_named::<T>(&member, name) {
            return false;
        }
        R::are_at(left, names)
    }

    fn read_field<D: ShapeDeserializer>(
        &mut self,
        source: &mut D,
        member: &Schema<'_>,
        position: u32,
    ) -> Result<(), SerdeError> {
        if position == 0 {
            self.value = Some(T::read_from(source, member)?);
            return Ok(());
        }
        self.rest.read_field(source, member, position - 1)
    }
}

// Whether the member has this name and is at a place of this type.
pub(crate) fn is_named<T: Typed>(member: &Schema<'_>, name: &str) -> bool
    ensures { IsTrue result ↔ (((site_of member.now).view.name ≡ Some name.now) × T.place (site_of member.now)) }
{
    if member.member_name() != Some(name) {
        return false;
    }
    T::is_at(member)
}

/// Fields that are written from where they are kept.
pub trait WriteFieldList {
    // The members' values.
    ghost fields: { Self → List (Option Value) };

    /// Writes the members from a position on, where their fields are there.
    fn write_from<S: ShapeSerializer>(
        &self,
        sink: &mut S,
        shape: &Schema<'_>,
        position: u32,
    ) -> Result<(), SerdeError>
        requires sound { S.failed sink.old ≡ false }
        requires inside { IsInside open_structure (S.open_in (S.state sink.old)) }
        requires few { position + length (fields self.now) ≤ 4294967295 }
        ensures adds { AddsInside S.after S.open_in (member_events (site_of shape.now) (members_at position (fields self.now))) (S.state sink.old) (S.failed sink.new) (S.state sink.new) result };
}

/// A field that is lent, and the fields after it.
#[derive(Drop)]
pub struct FieldRef<'a, T, R> {
    /// Its value, if it is there.
    pub value: &'a Option<T>,
    /// Those after it.
    pub rest: R,
}

impl WriteFieldList for NoField {
    ghost fields = { λ _. [] };

    fn write_from<S: ShapeSerializer>(
        &self,
        _sink: &mut S,
        _shape: &Schema<'_>,
        _position: u32,
    ) -> Result<(), SerdeError> {
        Ok(())
    }
}

impl<'a, T: Typed, R: WriteFieldList> WriteFieldList for FieldRef<'a, T, R> {
    ghost fields = { λ f. option_map T.value f.value.now ∷ R.fields f.rest };

    fn write_from<S: ShapeSerializer>(
        &self,
        sink: &mut S,
        shape: &Schema<'_>,
        position: u32,
    ) -> Result<(), SerdeError> {
        write_field(sink, shape, position, self.value)?;
        self.rest.write_from(sink, shape, position + 1)
    }
}

/// The schema of the member at a position, or if the table has none there, that of the structure or union.
pub fn member_under<'s>(shape: &Schema<'s>, position: u32) -> Schema<'s>
    ensures { site_of result ≡ member_of (site_of shape.now) position }
{
    match shape.member_at(position) {
        Some(member) => member,
        None => *shape,
    }
}

// Writes the member at a position of a structure, where its field is there.
fn write_field<T: Typed, S: ShapeSerializer>(
    sink: &mut S,
    shape: &Schema<'_>,
    position: u32,
    field: &Option<T>,
) -> Result<(), SerdeError>
    requires sound { S.failed sink.old ≡ false }
    requires inside { IsInside open_structure (S.open_in (S.state sink.old)) }
    ensures adds { AddsInside S.after S.open_in (field_events (site_of shape.now) position (option_map T.value field.now)) (S.state sink.old) (S.failed sink.new) (S.state sink.new) result }
{
    let Some(value) = field else {
        return Ok(());
    };
    value.write_to(sink, &member_under(shape, position))
}
