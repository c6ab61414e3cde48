//! Maps of texts that are read in one call.
ghost use Rattle.std.specs.Prelude.{◌≡◌};
ghost use Rattle.smithy_declarations.specs.Table.{IsMap};
ghost use Rattle.smithy_shapes.specs.Site.{site_of, kind_at};
ghost use Rattle.smithy_schema.specs.TextMaps.{ReadsEntry, ReadsTexts, text_entries, entries_of};

use crate::consume::MapConsumer;
use crate::error::SerdeError;
use crate::read::ShapeDeserializer;
use smithy_shapes::Schema;
use std::collections::BTreeMap;

/// Takes the entries of a map of texts. Of equal keys the last counts.
#[derive(Drop)]
pub struct TextEntries<'s> {
    /// What each value is read by.
    pub value: Schema<'s>,
    /// Those so far.
    pub entries: BTreeMap<String, String>,
}

impl<'s> MapConsumer for TextEntries<'s> {
    ghost call = { λ r key e c result f d. ReadsEntry r (site_of e.value) key (text_entries e.entries.entries) c result (text_entries f.entries.entries) d × (site_of f.value ≡ site_of e.value) };

    fn takes_nulls(&self) -> bool {
        true
    }

    fn entry<D: ShapeDeserializer>(
        &mut self,
        key: String,
        source: &mut D,
    ) -> Result<(), SerdeError> {
        let text = source.read_string(&self.value)?;
        self.entries.insert(key, text)?;
        Ok(())
    }
}

// Reads the map of texts that is due.
pub(crate) fn read_texts<D: ShapeDeserializer>(
    source: &mut D,
    schema: &Schema<'_>,
) -> Result<BTreeMap<String, String>, SerdeError>
    requires place { IsMap (kind_at (site_of schema.now)) }
    ensures same { D.settings source.new ≡ D.settings source.old }
    ensures read { ReadsTexts (D.reading (D.settings source.old)) (site_of schema.now) (D.state source.old) (entries_of result) (D.state source.new) }
{
    let Some(value) = schema.member() else {
        unreachable!()
    };
    let mut entries = TextEntries {
        value,
        entries: BTreeMap::new(source.allocator()),
    };
    source.read_map(schema, &mut entries)?;
    Ok(entries.entries)
}
