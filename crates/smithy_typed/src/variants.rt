//! Unions, whose member is of one of a list of types, one inside another.
ghost use Rattle.std.specs.Prelude.{◌≡◌, ◌↔◌, ℕ, suc, List, map, true, false, IsTrue};
ghost use Rattle.smithy_declarations.specs.declared.shape_type.ShapeType.TheVariants as types;
ghost use Rattle.smithy_declarations.specs.Value.{Value, union};
ghost use Rattle.smithy_shapes.specs.Site.{Site, site_of, member_of, member_site};
ghost use Rattle.smithy_shapes.specs.MembersLeft.{members_left};
ghost use Rattle.smithy_schema.specs.Typed.{ReadsAs, ReadsVariant, WritesAs};
ghost use Rattle.smithy_schema.specs.Writing.{events};
ghost use Rattle.smithy_typed.specs.Places.{HasShape, IsAnyMemberAt, IsAnyUnion, named_first, named_none};
ghost use Rattle.smithy_typed.specs.Values.{ReadsOneOf};

use crate::fields::{is_named, member_under};
use crate::typed::Typed;
use smithy_schema::{
    Members, Schema, SerdeError, ShapeDeserializer, ShapeSerializer, ShapeType, Step,
};

/// The member of a union, which is of one of a list of types.
pub trait VariantList {
    // Which of them it is.
    ghost index: { Self → ℕ };

    // The member's value.
    ghost inner: { Self → Value };

    // The members, each at a place of its type, by their names.
    ghost members: { List (List ℕ) → List Site → Type 0 };

    /// Whether the members that are left have these names, and are at places of the types.
    fn are_at(left: Members<'_>, names: &[&str]) -> bool
        ensures { IsTrue result ↔ members (map (λ n. n.now) names.now) (members_left left.entry) };

    /// Reads what is due as the member at its position.
    fn read_variant<D: ShapeDeserializer>(
        source: &mut D,
        member: &Schema<'_>,
        position: u32,
    ) -> Result<Self, SerdeError>
    where
        Self: Sized,
        requires due { (D.state source.old).due ≡ true }
        requires nulls { D.dispatches_nulls (D.settings source.old) ≡ false }
        requires there { IsAnyMemberAt members position (site_of member.now) }
        ensures same { D.settings source.new ≡ D.settings source.old }
        ensures reads { ReadsOneOf (D.reading (D.settings source.old)).wire (D.state source.old) (D.state source.new) (site_of member.now) position index inner result };
}

/// One of the members of a union, or one of those after it.
#[derive(Drop)]
pub enum Variant<T, R> {
    /// This one.
    This(T),
    /// One after it.
    Other(R),
}

/// The last member of a union.
#[derive(Drop)]
pub struct LastVariant<T> {
    /// Its value.
    pub value: T,
}

impl<T: Typed + Drop> VariantList for LastVariant<T> {
    ghost index = { λ _. 0 };

    ghost inner = { λ x. T.value x.value };

    ghost members = { named_first T.place named_none };

    fn are_at(left: Members<'_>, names: &[&str]) -> bool {
        let mut left = left;
        let Some((name, names)) = names.split_first() else {
            return false;
        };
        let Some(member) = left.next() else {
            return false;
        };
        if !is_named::<T>(&member, name) {
            return false;
        }
        names.is_empty() && left.next().is_none()
    }

    fn read_variant<D: ShapeDeserializer>(
        source: &mut D,
        member: &Schema<'_>,
        _position: u32,
    ) -> Result<LastVariant<T>, SerdeError> {
        let value = T::read_from(source, member)?;
        Ok(LastVariant { value })
    }
}

impl<T: Typed + Drop, R: VariantList + Drop> VariantList for Variant<T, R> {
    ghost use Rattle.smithy_typed.specs.OneOf.{variant_index, variant_inner};

    ghost index = { variant_index R.index };

    ghost inner = { variant_inner T.value R.inner };

    ghost members = { named_first T.place R.members };

    fn are_at(left: Members<'_>, names: &[&str]) -> bool {
        let mut left = left;
        let Some((name, names)) = names.split_first() else {
            return false;
        };
        let Some(member) = left.next() else {
            return false;
        };
        if !is_named::<T>(&member, name) {
            return false;
        }
        R::are_at(left, names)
    }

    fn read_variant<D: ShapeDeserializer>(
        source: &mut D,
        member: &Schema<'_>,
        position: u32,
    ) -> Result<Variant<T, R>, SerdeError> {
        if position == 0 {
            return Ok(Variant::This(T::read_from(source, member)?));
        }
        Ok(Variant::Other(R::read_variant(source, member, position - 1)?))
    }
}

/// A union that is made of its member.
pub trait FromVariants<V: VariantList> {
    // The members' names in order.
    ghost names: { List (List ℕ) };

    // The union.
    ghost made: { Self → Value };

    /// The union of this member.
    fn from_variant(variant: V) -> Self
    where
        Self: Sized,
        ensures { made result ≡ union (V.index variant) (V.inner variant) };
}

/// Whether a union is there whose members have these names, and are at places of the types.
pub fn is_union_of<V: VariantList>(schema: &Schema<'_>, names: &[&str]) -> bool
    ensures { IsTrue result ↔ HasShape types.Union (V.members (map (λ n. n.now) names.now)) (site_of schema.now) }
{
    if schema.shape_type() != ShapeType::Union {
        return false;
    }
    V::are_at(schema.members(), names)
}

// Reads what is due as the member of the union that has this schema.
fn read_member<V: VariantList + Drop, D: ShapeDeserializer>(
    source: &mut D,
    member: &Schema<'_>,
) -> Result<V, SerdeError>
    requires due { (D.state source.old).due ≡ true }
    requires nulls { D.dispatches_nulls (D.settings source.old) ≡ false }
    requires there { (outer : Site) × (n : ℕ) × IsAnyUnion V.members outer × (member_site outer n ≡ Some (site_of member.now)) }
    ensures same { D.settings source.new ≡ D.settings source.old }
    ensures reads { ReadsVariant (D.reading (D.settings source.old)).wire (D.state source.old) (D.state source.new) (site_of member.now) (λ x. union (V.index x) (V.inner x)) result }
{
    let Some(position) = member.member_index() else {
        unreachable!()
    };
    V::read_variant(source, member, position)
}

// Reads the member of the union that is due.
fn read_variants<V: VariantList + Drop, D: ShapeDeserializer>(
    source: &mut D,
    schema: &Schema<'_>,
) -> Result<V, SerdeError>
    requires due { (D.state source.old).due ≡ true }
    requires nulls { D.dispatches_nulls (D.settings source.old) ≡ false }
    requires there { IsAnyUnion V.members (site_of schema.now) }
    ensures same { D.settings source.new ≡ D.settings source.old }
    ensures reads { ReadsAs (D.reading (D.settings source.old)).wire (D.state source.old) (D.state source.new) (site_of schema.now) (λ x. union (V.index x) (V.inner x)) result }
{
    source.open_struct(schema)?;
    let Step::Member(member) = source.next_member(schema)? else {
        source.fail();
        return Err(SerdeError::InvalidInput);
    };
    let value = read_member::<V, D>(source, &member)?;
    let Step::End = source.next_member(schema)? else {
        source.fail();
        return Err(SerdeError::InvalidInput);
    };
    Ok(value)
}

/// Reads the union that is due.
pub fn read_union<T: FromVariants<V>, V: VariantList + Drop, D: ShapeDeserializer>(
    source: &mut D,
    schema: &Schema<'_>,
) -> Result<T, SerdeError>
    requires due { (D.state source.old).due ≡ true }
    requires nulls { D.dispatches_nulls (D.settings source.old) ≡ false }
    requires there { HasShape types.Union (V.members T.names) (site_of schema.now) }
    ensures same { D.settings source.new ≡ D.settings source.old }
    ensures reads { ReadsAs (D.reading (D.settings source.old)).wire (D.state source.old) (D.state source.new) (site_of schema.now) T.made result }
{
    let variant = read_variants::<V, D>(source, schema)?;
    Ok(T::from_variant(variant))
}

/// Writes the union of the member at a position.
pub fn write_variant<T: Typed, S: ShapeSerializer>(
    sink: &mut S,
    schema: &Schema<'_>,
    position: u32,
    value: &T,
) -> Result<(), SerdeError>
    requires sound { S.failed sink.old ≡ false }
    ensures writes { WritesAs S.after (events (site_of schema.now) (union position (T.value value.now))) (S.state sink.old) (S.failed sink.new) (S.state sink.new) result }
{
    sink.begin_struct(schema)?;
    value.write_to(sink, &member_under(schema, position))?;
    sink.end_struct()
}
