//! Where a value or a container of a reader may end.
ghost use Rattle.std.specs.Prelude.{◌≡◌, ◌↔◌, IsTrue};
ghost use Rattle.smithy_schema.specs.Reading.{depth};
ghost use Rattle.smithy_cbor_codec.specs.Cursor.{cursor_of, reading_settings_of};
ghost use Rattle.smithy_cbor_values.specs.Standing.{FollowsInside, end_depth};

use crate::deserializer::CborDeserializer;
use smithy_cbor_values::places::may_leave;

impl CborDeserializer<'_> {
    // By how many open containers it is judged where a value may end: where bytes may follow an item, by one more.
    pub(crate) fn end_depth(&self) -> usize
        ensures { result ≡ end_depth (reading_settings_of self.now).enforce_strictness (depth (cursor_of self.now)) }
    {
        let depth = self.walk.depth();
        if self.settings.enforce_strictness {
            depth
        } else {
            depth + 1
        }
    }

    // Whether the innermost container may end at the offset.
    pub(crate) fn may_leave_at(&self, at: usize) -> bool
        ensures { IsTrue result ↔ FollowsInside (reading_settings_of self.now).enforce_strictness (depth (cursor_of self.now)) (cursor_of self.now).input at }
    {
        may_leave(
            self.walk.input,
            at,
            self.walk.depth(),
            self.settings.enforce_strictness,
        )
    }
}
