//! The keys of maps, in the forms in which calls hand them out.
ghost use Rattle.std.specs.Prelude.{◌≡◌, true, IfOk, MatchOption};
ghost use Rattle.smithy_schema.specs.Containers.{GoesOnInMap};
ghost use Rattle.smithy_schema.specs.Reading.{in_map};
ghost use Rattle.smithy_json_grammar.specs.Unescape.{has_escape};
ghost use Rattle.smithy_json_values.specs.Private.PlacedTexts.{IsMeantFrom};

use crate::deserializer::JsonDeserializer;
use crate::frames::frame;
use smithy_json_values::places::{InObject, next_in_object};
use smithy_json_values::texts::{owned_text, span_of};
use smithy_schema::{SerdeError, TextPiece, TextSpan};
use smithy_wire::ContainerKind;
use std::alloc::{AllocError, Global};

// What a call hands out for a key.
pub(crate) trait Key: TextPiece + Sized {
    // The key of a raw name that begins at the place, if its escapes are sound.
    fn of_name(
        alloc: Global,
        raw: &str,
        at: usize,
        is_escaped: bool,
    ) -> Result<Option<Self>, AllocError>
        requires { is_escaped ≡ has_escape raw.now }
        ensures { IfOk result (IsMeantFrom Self.bytes_of Self.is_placed Self.is_between at raw.now) };
}

impl Key for String {
    #[inline(always)]
    fn of_name(
        alloc: Global,
        raw: &str,
        _at: usize,
        is_escaped: bool,
    ) -> Result<Option<String>, AllocError> {
        owned_text(alloc, raw, is_escaped)
    }
}

impl Key for TextSpan {
    #[inline(always)]
    fn of_name(
        alloc: Global,
        raw: &str,
        at: usize,
        is_escaped: bool,
    ) -> Result<Option<TextSpan>, AllocError> {
        span_of(alloc, raw, at, is_escaped)
    }
}

impl JsonDeserializer<'_, '_> {
    ghost use Rattle.smithy_json_codec.specs.Cursor.{cursor_of, reading_settings_of, reader_settings_of};
    ghost use Rattle.smithy_json_values.specs.Standing.{json_reader};

    // Goes on in the map, to its next key or behind its end.
    #[inline(always)]
    pub(crate) fn next_key_as<K: Key>(&mut self) -> Result<Option<K>, SerdeError>
        requires within { (cursor_of self.old).inner.within ≡ in_map }
        ensures same { reader_settings_of self.new ≡ reader_settings_of self.old }
        ensures goes_on { GoesOnInMap (json_reader (reading_settings_of self.old)) (K.bytes_of (cursor_of self.old).input) (cursor_of self.old) (cursor_of self.new) result }
        ensures placed { IfOk result (λ next. MatchOption next (Unit {0}) (K.is_placed (cursor_of self.old).input)) }
        ensures between { IfOk result (λ next. MatchOption next (Unit {0}) (K.is_between (cursor_of self.old).at (cursor_of self.new).at)) }
    {
        if self.walk.failed {
            return Err(self.walk.refuse(SerdeError::Failed));
        }
        if self.walk.due {
            return Err(self.walk.refuse(SerdeError::InvalidInput));
        }
        match next_in_object(
            self.walk.input,
            self.walk.position,
            self.walk.inner.mark.entered,
            self.walk.depth(),
            &self.settings,
        ) {
            Some(InObject::Member(name)) => {
                match K::of_name(self.alloc, name.raw, name.at, name.has_escape) {
                    Ok(Some(key)) => {
                        self.walk.go_on(name.end, frame(ContainerKind::Map, true));
                        Ok(Some(key))
                    }
                    Ok(None) => Err(self.walk.refuse(SerdeError::InvalidInput)),
                    Err(_) => Err(self.walk.refuse(SerdeError::NoMemory)),
                }
            }
            Some(InObject::End(end)) => {
                self.walk.leave(end);
                Ok(None)
            }
            None => Err(self.walk.refuse(SerdeError::InvalidInput)),
        }
    }
}
