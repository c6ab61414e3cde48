//! What can be written into a container that is begun and ended around it.
ghost use Rattle.std.specs.Prelude.{◌≡◌, Bool, true, false, OnOk};
ghost use Rattle.smithy_shapes.specs.Site.{Site, site_of};
ghost use Rattle.smithy_schema.specs.Writing.{Open, open_structure};
ghost use Rattle.smithy_schema.specs.Written.{Adds, outcome, IsInside};

use crate::error::SerdeError;
use crate::write::ShapeSerializer;
use smithy_shapes::Schema;

/// A structure or a union, which writes its members.
///
/// A call that answers Ok leaves the serializer's open containers as they were. A type that writes each member by
/// `write_member` of `WriteMember`, or by `write_field`, proves that with no answer of its own:
///
/// ```text
/// ghost use Rattle.smithy_shapes.specs.Site.{site_of};
///
/// impl<'s> SerializableStruct for Scan<'s> {
///     ghost site = { λ scan. site_of scan.shape };
///
///     ghost adds = { λ _ _ _ _ _. Unit {0} };
///
///     fn schema(&self) -> Schema<'_> {
///         self.shape
///     }
///
///     fn serialize_members<S: ShapeSerializer>(&self, sink: &mut S) -> Result<(), SerdeError> {
///         if let Some(member) = self.shape.member_schema("TableName") {
///             self.table_name.write_member(sink, &member)?;
///         }
///         if let Some(member) = self.shape.member_schema("Limit") {
///             self.limit.write_member(sink, &member)?;
///         }
///         Ok(())
///     }
/// }
/// ```
///
/// This `adds` says nothing of what the calls add. `Written` says all of it, for a type with an `impl WriteFields`.
pub trait SerializableStruct {
    // The site of the schema.
    ghost site: { Self → Site };

    // What a call adds, to whichever serializer.
    ghost adds: { Adds Self };

    /// The schema of the structure or the union.
    fn schema(&self) -> Schema<'_>
        ensures { site_of result ≡ site self.now };

    /// Writes the members.
    fn serialize_members<S: ShapeSerializer>(&self, sink: &mut S) -> Result<(), SerdeError>
        requires sound { S.failed sink.old ≡ false }
        requires inside { IsInside open_structure (S.open_in (S.state sink.old)) }
        ensures adds { adds S.State S.after self.now (S.state sink.old) (outcome result (S.state sink.new)) }
        ensures nests { OnOk result (S.open_in (S.state sink.new) ≡ S.open_in (S.state sink.old)) }
        ensures sound { OnOk result (S.failed sink.new ≡ false) };
}

/// The elements of a list, or the entries of a map: each key is a text, and behind it comes its value.
///
/// A call that answers Ok leaves the serializer's open containers as they were:
///
/// ```text
/// impl<'s> WriteElements for Names<'s> {
///     ghost adds = { λ _ _ _ _ _. Unit {0} };
///
///     ghost can_stand = { λ _ o. o ≡ open_list };
///
///     fn write<S: ShapeSerializer>(&self, sink: &mut S) -> Result<(), SerdeError> {
///         for name in self.names {
///             sink.write_string(&self.element, name)?;
///         }
///         Ok(())
///     }
/// }
/// ```
///
/// The loop owes an invariant: the open containers are as they were, a list is the innermost, and no call has
/// failed. That a call keeps it is one answer, by `scalar_stays` of `proofs/WrittenByHand`; for a key and its
/// value it is `entry_stays`. `WrittenList`, for structures, owes nothing.
pub trait WriteElements {
    // What a call adds, to whichever serializer.
    ghost adds: { Adds Self };

    // The containers that the elements or entries can be written into: a list, or a map at a key.
    ghost can_stand: { Self → Open → Type 0 } = { λ _ _. Unit {0} };

    /// Writes the elements or the entries.
    fn write<S: ShapeSerializer>(&self, sink: &mut S) -> Result<(), SerdeError>
        requires sound { S.failed sink.old ≡ false }
        requires inside { (o : Open) × can_stand self.now o × IsInside o (S.open_in (S.state sink.old)) }
        ensures adds { adds S.State S.after self.now (S.state sink.old) (outcome result (S.state sink.new)) }
        ensures nests { OnOk result (S.open_in (S.state sink.new) ≡ S.open_in (S.state sink.old)) }
        ensures sound { OnOk result (S.failed sink.new ≡ false) };
}
