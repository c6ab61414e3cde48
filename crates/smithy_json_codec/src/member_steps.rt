//! How a reader goes on in a structure or a union.
use crate::deserializer::JsonDeserializer;
use crate::frames::{frame, is_structure};
use crate::members::{Next, next_present, step_to};
use smithy_json_values::places::is_over;
use smithy_json_values::skip::skipped_end;
use smithy_schema::{Schema, SerdeError, Step};
use smithy_wire::ContainerKind;

impl JsonDeserializer<'_, '_> {
    ghost use Rattle.std.specs.Prelude.{◌≡◌, ◌≤◌, ◌↔◌, ℕ, length, IsTrue, IsErrOf, true, false};
    ghost use Rattle.smithy_schema.specs.Containers.{GoesOnInStructure};
    ghost use Rattle.smithy_schema.specs.Reading.{depth, in_structure, reader};
    ghost use Rattle.smithy_declarations.specs.Table.{HasMembers};
    ghost use Rattle.smithy_shapes.specs.Site.{site_of, kind_at};
    ghost use Rattle.smithy_schema.specs.declared.error.SerdeError.TheVariants.{TooDeep};
    ghost use Rattle.smithy_json_codec.specs.Cursor.{cursor_of, reading_settings_of, reader_settings_of};
    ghost use Rattle.smithy_json_values.specs.Deepest.{OpensTooDeep};
    ghost use Rattle.smithy_json_values.specs.Settings.{without_limits};
    ghost use Rattle.smithy_json_values.specs.Standing.{json_grammar, json_relations, json_reader};
    ghost use Rattle.smithy_wire.specs.Stepping.{StepsFrom};
    ghost use Rattle.smithy_json_codec.specs.Private.MemberSteps.{EndsEmpty};

    // Whether the innermost container was opened where the input is over, as it is at the offset, and ends there.
    fn ends_empty(&self, at: usize) -> bool
        requires { at ≤ length self.now.walk.input.now }
        ensures { IsTrue result ↔ EndsEmpty (reading_settings_of self.now).enforce_strictness at (cursor_of self.now) }
    {
        let mark = self.walk.inner.mark;
        mark.at_end
            && !mark.entered
            && mark.due.is_none()
            && is_over(self.walk.input, at, &self.settings)
            && self.walk.depth() > 0
    }

    // Goes on in the structure or the union from the offset on, where nothing is due any more.
    #[inline(always)]
    pub(crate) fn step_from<'s>(
        &mut self,
        at: usize,
        schema: &Schema<'s>,
    ) -> Result<Step<'s>, SerdeError>
        requires ahead { self.old.walk.position ≤ at }
        requires within { at ≤ length self.old.walk.input.now }
        requires sound { self.old.walk.failed ≡ false }
        requires inside { (cursor_of self.old).inner.within ≡ in_structure }
        requires place { HasMembers (kind_at (site_of schema.now)) }
        ensures same { reader_settings_of self.new ≡ reader_settings_of self.old }
        ensures steps { StepsFrom (json_reader (reading_settings_of self.old)) (cursor_of self.old) at (cursor_of self.new) (site_of schema.now) result }
        ensures too_deep { IsErrOf result TooDeep
            → (q : ℕ) × (at ≤ q) × OpensTooDeep (json_grammar (reading_settings_of self.old)) (reading_settings_of self.old).max_depth (depth (cursor_of self.old)) (cursor_of self.old).input q }
    {
        if self.ends_empty(at) && is_structure(schema) {
            let end = self.walk.input.len();
            self.walk.leave(end);
            return Ok(Step::End);
        }
        match next_present(
            self.alloc,
            &self.input(),
            at,
            self.walk.inner.mark.entered,
            self.walk.depth(),
            schema,
        ) {
            Ok(Next::Member(name, value)) => {
                let step = step_to(schema, self.settings, name.as_str());
                self.walk
                    .go_on(value, frame(ContainerKind::Structure, true));
                Ok(step)
            }
            Ok(Next::End(end)) => {
                self.walk.leave(end);
                Ok(Step::End)
            }
            Err(fault) => Err(self.walk.refuse(fault.refusal())),
        }
    }

    // Goes on in the structure or the union behind the value that was left unread. It stays a call, so that a step stands in line once.
    #[inline(never)]
    pub(crate) fn step_past_unread<'s>(
        &mut self,
        schema: &Schema<'s>,
    ) -> Result<Step<'s>, SerdeError>
        requires sound { self.old.walk.failed ≡ false }
        requires due { (cursor_of self.old).due ≡ true }
        requires inside { (cursor_of self.old).inner.within ≡ in_structure }
        requires place { HasMembers (kind_at (site_of schema.now)) }
        ensures same { reader_settings_of self.new ≡ reader_settings_of self.old }
        ensures goes_on { GoesOnInStructure (reader (json_relations (reading_settings_of self.old)) (json_relations (without_limits (reading_settings_of self.old))) (Unit {0}) (reading_settings_of self.old).max_depth) (cursor_of self.old) (cursor_of self.new) (site_of schema.now) result }
        ensures too_deep { IsErrOf result TooDeep
            → (q : ℕ) × ((cursor_of self.old).at ≤ q) × OpensTooDeep (json_grammar (reading_settings_of self.old)) (reading_settings_of self.old).max_depth (depth (cursor_of self.old)) (cursor_of self.old).input q }
    {
        let at = self.walk.position;
        match skipped_end(self.input(), at, self.walk.depth()) {
            Ok(end) => self.step_from(end, schema),
            Err(fault) => Err(self.walk.refuse(fault.refusal())),
        }
    }
}
