//! Whole numbers that one call writes into a list or a map.
ghost use Rattle.std.specs.Prelude.{◌≡◌, false, OnOk};
ghost use Rattle.smithy_schema.specs.Writing.{open_list, open_map_at_key};
ghost use Rattle.smithy_schema.specs.Written.{IsInside};

use itoa::Buffer;
use smithy_schema::{Schema, SerdeError, ShapeSerializer, WriteElements};

/// So many whole numbers, from 0 on, as elements.
#[derive(Drop)]
pub struct Elements<'s> {
    /// The schema of the elements.
    pub element: Schema<'s>,
    pub count: u8,
}

impl<'s> WriteElements for Elements<'s> {
    // Rows tell what it adds.
    ghost adds = { λ _ _ _ _ _. Unit {0} };

    ghost can_stand = { λ _ o. o ≡ open_list };

    fn write<S: ShapeSerializer>(&self, sink: &mut S) -> Result<(), SerdeError> {
        for n in 0..self.count {
            sink.write_long(&self.element, i64::from(n))?;
        }
        Ok(())
    }
}

/// So many whole numbers, from 0 on, as values of a map, each under its digits.
#[derive(Drop)]
pub struct Entries<'s> {
    /// The schema of the keys.
    pub key: Schema<'s>,
    /// The schema of the values.
    pub value: Schema<'s>,
    pub count: u8,
}

impl<'s> WriteElements for Entries<'s> {
    // Rows tell what it adds.
    ghost adds = { λ _ _ _ _ _. Unit {0} };

    ghost can_stand = { λ _ o. o ≡ open_map_at_key };

    fn write<S: ShapeSerializer>(&self, sink: &mut S) -> Result<(), SerdeError> {
        for n in 0..self.count {
            write_entry(sink, self, n)?;
        }
        Ok(())
    }
}

// Writes a key and the number behind it.
fn write_entry<S: ShapeSerializer>(
    sink: &mut S,
    entries: &Entries<'_>,
    n: u8,
) -> Result<(), SerdeError>
    requires sound { S.failed sink.old ≡ false }
    requires inside { IsInside open_map_at_key (S.open_in (S.state sink.old)) }
    ensures nests { OnOk result (S.open_in (S.state sink.new) ≡ S.open_in (S.state sink.old)) }
    ensures sound { OnOk result (S.failed sink.new ≡ false) }
{
    let mut buffer = Buffer::new();
    sink.write_string(&entries.key, buffer.format(n))?;
    sink.write_long(&entries.value, i64::from(n))
}
