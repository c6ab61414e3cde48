//! The structure that a request has as its body.
ghost use Rattle.smithy_shapes.specs.Site.{site_of};

use smithy_schema::{Schema, SerdeError, SerializableStruct, ShapeSerializer, WriteMember};

/// A structure that has a text as its one member, or no member.
#[derive(Clone, Copy)]
pub struct Input<'s> {
    pub shape: Schema<'s>,
    pub text: Option<&'s str>,
}

impl<'s> SerializableStruct for Input<'s> {
    ghost site = { λ input. site_of input.shape };

    // Rows tell what it adds.
    ghost adds = { λ _ _ _ _ _. Unit {0} };

    fn schema(&self) -> Schema<'_> {
        self.shape
    }

    fn serialize_members<S: ShapeSerializer>(&self, sink: &mut S) -> Result<(), SerdeError> {
        let Some(text) = self.text else {
            return Ok(());
        };
        match self.shape.member_schema("a") {
            Some(member) => text.write_member(sink, &member),
            None => Ok(()),
        }
    }
}
