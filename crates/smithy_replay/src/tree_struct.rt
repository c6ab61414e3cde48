//! A value that is written by one call.
ghost use Rattle.smithy_declarations.specs.Table.{IsStructure, kind_of};
ghost use Rattle.smithy_shapes.specs.Fits.{Fits};
ghost use Rattle.smithy_replay.specs.Private.FitsOnce.{structure_once, fits_once};
ghost use Rattle.smithy_value.specs.View.{view};
ghost use Rattle.std.specs.Prelude.{false};

use smithy_schema::{Schema, SerdeError, SerializableStruct, ShapeSerializer};
use smithy_value::{Part, Trees, Value, ValueTrees, write_value};
use std::alloc::Global;

/// A structure under its schema, as `write_struct` takes it: its members are written as `write_value` writes them.
#[derive(Drop)]
pub struct TreeStruct<'s, 'v> {
    alloc: Global,
    pub(crate) shape: Schema<'s>,
    pub(crate) value: &'s Value<'v>,
    ghost is_structure: { IsStructure (kind_of shape.shapes.now shape.place) } by { structure_once (kind_of shape.shapes.now shape.place) },
    ghost fits: { Fits shape.shapes.now shape.place (view value.now) } by { fits_once shape.shapes.now shape.place false (view value.now) },
}

impl<'s, 'v> TreeStruct<'s, 'v> {
    ghost use Rattle.std.specs.Prelude.{◌≡◌, None};
    ghost use Rattle.smithy_shapes.specs.Accepted.{IsAccepted};
    ghost use Rattle.smithy_shapes.specs.Site.{site_of};
    ghost use Rattle.smithy_transcode.specs.Wires.{Wire, unfit_at};
    ghost use Rattle.smithy_replay.specs.Writes.{WritesItsBody};

    /// The structure that a value is. Where a wire can express it, `write_struct` with it on a fresh serializer of the wire writes its body,
    /// or reports that memory ran out.
    pub fn new(alloc: Global, shape: Schema<'s>, value: &'s Value<'v>) -> TreeStruct<'s, 'v>
        requires structure { IsStructure (kind_of shape.shapes.now shape.place) }
        requires fits { Fits shape.shapes.now shape.place (view value.now) }
        ensures shape { result.shape ≡ shape.entry }
        ensures value { result.value.now ≡ value.now }
        ensures writes { (wire : Wire) → IsAccepted shape.entry.shapes.now → (site_of shape.entry).view.name ≡ None → unfit_at wire (site_of shape.entry) (view value.now) ≡ None
            → WritesItsBody wire (site_of shape.entry) (view value.now) }
    {
        TreeStruct {
            alloc,
            shape,
            value,
        }
    }
}

impl<'s, 'v> SerializableStruct for TreeStruct<'s, 'v> {
    ghost use Rattle.smithy_shapes.specs.Site.{site_of};
    ghost use Rattle.smithy_schema.specs.Writing.{member_events};
    ghost use Rattle.smithy_schema.specs.Written.{Runs};
    ghost use Rattle.smithy_replay.specs.TreeMembers.{members_in};

    ghost site = { λ t. site_of t.shape };

    ghost adds = { λ S after t s. Runs after (member_events (site_of t.shape) (members_in (view t.value.now))) s };

    fn schema(&self) -> Schema<'_> {
        self.shape
    }

    fn serialize_members<S: ShapeSerializer>(&self, sink: &mut S) -> Result<(), SerdeError> {
        let trees = ValueTrees::new();
        let Part::Structure(members) = trees.part(self.value) else {
            unreachable!()
        };
        let mut left = members.iter();
        while let Some((position, value)) = left.next_member::<ValueTrees<'_>>() {
            let Some(member) = self.shape.member_at(position) else {
                unreachable!()
            };
            write_value(self.alloc, sink, &member, value)?;
        }
        Ok(())
    }
}
