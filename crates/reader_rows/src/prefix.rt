//! A prefix of structures that rows tell of.
ghost use Rattle.std.specs.Prelude.{◌∷◌, [], Ok};
ghost use Rattle.reader_rows.specs.MarkEntry.{mark_is_an_entry};

use smithy_cbor_codec::{CborBody, StructPrefix};
use smithy_schema::{Schema, SerdeError, ShapeSerializer};

/// The entry `p` with the number 1.
#[derive(Clone, Copy)]
pub struct Mark;

impl StructPrefix for Mark {
    ghost adds = { λ p site. Ok (0x61 ∷ 0x70 ∷ 0x01 ∷ []) };

    ghost entries = { λ p site. mark_is_an_entry };

    fn write(&self, schema: &Schema<'_>, sink: &mut CborBody) -> Result<(), SerdeError> {
        let bare = schema.nameless();
        sink.write_string(&bare, "p")?;
        sink.write_long(&bare, 1)
    }
}
