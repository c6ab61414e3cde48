//! The keys of maps, in the forms in which calls hand them out.
ghost use Rattle.std.specs.Prelude.{◌≡◌, ◌≤◌, length, IfOk, MatchOption};
ghost use Rattle.std.specs.Cow.{cow_str_bytes, IsBorrowedStr};
ghost use Rattle.smithy_schema.specs.Containers.{GoesOnInMap};
ghost use Rattle.smithy_schema.specs.Reading.{in_map};
ghost use Rattle.smithy_cbor_codec.specs.Private.Spans.{IsMeantUpTo};

use crate::deserializer::CborDeserializer;
use crate::frames::frame;
use crate::members::{Next, next_in_map};
use crate::spans::span_of;
use smithy_schema::{SerdeError, TextPiece, TextSpan};
use smithy_wire::ContainerKind;
use std::alloc::{AllocError, Global};
use std::borrow::CowStr;

// What a call hands out for a key.
pub(crate) trait Key: TextPiece + Sized {
    // The key of the text whose item ends at the offset.
    fn of_text(alloc: Global, text: CowStr<'_, Global>, end: usize) -> Result<Self, AllocError>
        requires { IsBorrowedStr text → length (cow_str_bytes text) ≤ end }
        ensures { IfOk result (IsMeantUpTo Self.bytes_of Self.is_placed Self.is_between text.entry end) };
}

impl Key for String {
    #[inline(always)]
    fn of_text(alloc: Global, text: CowStr<'_, Global>, _end: usize) -> Result<String, AllocError> {
        text.into_owned(alloc)
    }
}

impl Key for TextSpan {
    #[inline(always)]
    fn of_text(
        _alloc: Global,
        text: CowStr<'_, Global>,
        end: usize,
    ) -> Result<TextSpan, AllocError> {
        Ok(span_of(text, end))
    }
}

impl CborDeserializer<'_> {
    ghost use Rattle.smithy_cbor_codec.specs.Cursor.{cursor_of, reading_settings_of};
    ghost use Rattle.smithy_cbor_values.specs.Standing.{cbor_reader};

    // Goes on in the map, to its next key or behind its end.
    #[inline(always)]
    pub(crate) fn next_key_as<K: Key>(&mut self) -> Result<Option<K>, SerdeError>
        requires within { (cursor_of self.old).inner.within ≡ in_map }
        ensures same { reading_settings_of self.new ≡ reading_settings_of self.old }
        ensures goes_on { GoesOnInMap (cbor_reader (reading_settings_of self.old)) (K.bytes_of (cursor_of self.old).input) (cursor_of self.old) (cursor_of self.new) result }
        ensures placed { IfOk result (λ next. MatchOption next (Unit {0}) (K.is_placed (cursor_of self.old).input)) }
        ensures between { IfOk result (λ next. MatchOption next (Unit {0}) (K.is_between (cursor_of self.old).at (cursor_of self.new).at)) }
    {
        if self.walk.failed {
            return Err(self.walk.refuse(SerdeError::Failed));
        }
        if self.walk.due {
            return Err(self.walk.refuse(SerdeError::InvalidInput));
        }
        match next_in_map(
            self.alloc,
            self.walk.input,
            self.walk.position,
            self.walk.inner.mark.due,
        ) {
            Ok(Some(Next::Pair(text, value, due))) => match K::of_text(self.alloc, text, value) {
                Ok(key) => {
                    self.walk.go_on(value, frame(ContainerKind::Map, due));
                    Ok(Some(key))
                }
                Err(_) => Err(self.walk.refuse(SerdeError::NoMemory)),
            },
            Ok(Some(Next::End(end))) => {
                if self.may_leave_at(end) {
                    self.walk.leave(end);
                    return Ok(None);
                }
                Err(self.walk.refuse(SerdeError::InvalidInput))
            }
            Ok(None) => Err(self.walk.refuse(SerdeError::InvalidInput)),
            Err(_) => Err(self.walk.refuse(SerdeError::NoMemory)),
        }
    }
}
