//! How a reader goes on in a structure or a union.
use crate::deserializer::CborDeserializer;
use crate::frames::{frame, is_missing};
use crate::members::{Next, next_present, step_to};
use smithy_schema::{Schema, SerdeError, Step};
use smithy_wire::ContainerKind;

impl CborDeserializer<'_> {
    ghost use Rattle.std.specs.Prelude.{◌≡◌, ◌≤◌, ◌↔◌, length, IsTrue, IsErrOf, false};
    ghost use Rattle.smithy_schema.specs.Reading.{in_structure};
    ghost use Rattle.smithy_declarations.specs.Table.{IsStructure, HasMembers};
    ghost use Rattle.smithy_shapes.specs.Site.{site_of, kind_at};
    ghost use Rattle.smithy_schema.specs.declared.error.SerdeError.TheVariants.{TooDeep};
    ghost use Rattle.smithy_cbor_codec.specs.Cursor.{cursor_of, reading_settings_of};
    ghost use Rattle.smithy_cbor_values.specs.Standing.{cbor_reader};
    ghost use Rattle.smithy_wire.specs.Stepping.{StepsFrom};
    ghost use Rattle.smithy_cbor_codec.specs.Private.MemberSteps.{EndsEmpty};

    // Whether the innermost container was opened where nothing is left, and ends at the offset as a structure.
    fn ends_empty(&self, at: usize, schema: &Schema<'_>) -> bool
        ensures { IsTrue result ↔ IsStructure (kind_at (site_of schema.now)) × EndsEmpty (reading_settings_of self.now).enforce_strictness (cursor_of self.now) at }
    {
        let mark = self.walk.inner.mark;
        mark.at_end
            && !mark.entered
            && mark.due.is_none()
            && is_missing(
                self.walk.input,
                at,
                self.settings.enforce_strictness,
                schema,
            )
            && self.walk.depth() > 0
    }

    // Goes on in the structure or the union from the offset on, where nothing is due any more.
    pub(crate) fn step_from<'s>(
        &mut self,
        at: usize,
        schema: &Schema<'s>,
    ) -> Result<Step<'s>, SerdeError>
        requires ahead { self.old.walk.position ≤ at }
        requires within { at ≤ length self.old.walk.input.now }
        requires sound { self.old.walk.failed ≡ false }
        requires inside { (cursor_of self.old).inner.within ≡ in_structure }
        requires place { HasMembers (kind_at (site_of schema.now)) }
        ensures same { reading_settings_of self.new ≡ reading_settings_of self.old }
        ensures steps { StepsFrom (cbor_reader (reading_settings_of self.old)) (cursor_of self.old) at (cursor_of self.new) (site_of schema.now) result }
        ensures shallow { IsErrOf result TooDeep → ⊥ }
    {
        if self.ends_empty(at, schema) {
            self.walk.leave(at);
            return Ok(Step::End);
        }
        match next_present(
            self.alloc,
            self.walk.input,
            at,
            self.walk.inner.mark.due,
            self.end_depth(),
            schema,
            !self.settings.dispatch_null_members,
        ) {
            Ok(Some(Next::Pair(name, value, due))) => {
                let step = step_to(schema, name.as_str());
                self.walk.go_on(value, frame(ContainerKind::Structure, due));
                Ok(step)
            }
            Ok(Some(Next::End(end))) => {
                if self.may_leave_at(end) {
                    self.walk.leave(end);
                    return Ok(Step::End);
                }
                Err(self.walk.refuse(SerdeError::InvalidInput))
            }
            Ok(None) => Err(self.walk.refuse(SerdeError::InvalidInput)),
            Err(_) => Err(self.walk.refuse(SerdeError::NoMemory)),
        }
    }
}
