//! Calling a consumer for each entry of a container, under the settings that a reader has.
ghost use Rattle.std.specs.Prelude.{◌≡◌, OnOk};
ghost use Rattle.smithy_declarations.specs.Table.{HasMembers, IsList, IsMap};
ghost use Rattle.smithy_shapes.specs.Site.{site_of, kind_at};
ghost use Rattle.smithy_schema.specs.Nulls.{GetsNoNull};
ghost use Rattle.smithy_schema.specs.Reading.{in_structure, in_list, in_map};
ghost use Rattle.smithy_schema.specs.Consuming.{ReadsEntries, by_member, by_element, by_key};

use crate::consume::{ListConsumer, MapConsumer, StructConsumer};
use crate::error::SerdeError;
use crate::read::ShapeDeserializer;
use crate::step::Step;
use smithy_shapes::Schema;

// Reads the structure or the union that is due.
pub(crate) fn each_member<C: StructConsumer, D: ShapeDeserializer>(
    source: &mut D,
    schema: &Schema<'_>,
    consumer: &mut C,
) -> Result<(), SerdeError>
    requires place { HasMembers (kind_at (site_of schema.now)) }
    requires nulls { GetsNoNull C.takes_nulls (D.dispatches_nulls (D.settings source.old)) }
    requires allowed { C.can_take consumer.old (site_of schema.now) }
    ensures same { D.settings source.new ≡ D.settings source.old }
    ensures reads { let r = D.reading (D.settings source.old) in ReadsEntries r (site_of schema.now) in_structure (by_member r (site_of schema.now)) (C.call r) consumer.old (D.state source.old) result consumer.new (D.state source.new) }
    ensures allowed { OnOk result (C.can_take consumer.new (site_of schema.now)) }
{
    source.open_struct(schema)?;
    'members: loop {
        let step = source.next_member(schema)?;
        if let Step::End = step {
            return Ok(());
        }
        if let Err(error) = consumer.member(step.member(), source) {
            source.fail();
            return Err(error);
        }
    }
}

// Reads the list that is due.
pub(crate) fn each_element<C: ListConsumer, D: ShapeDeserializer>(
    source: &mut D,
    schema: &Schema<'_>,
    consumer: &mut C,
) -> Result<(), SerdeError>
    requires place { IsList (kind_at (site_of schema.now)) }
    requires nulls { GetsNoNull C.takes_nulls (D.dispatches_nulls (D.settings source.old)) }
    ensures same { D.settings source.new ≡ D.settings source.old }
    ensures reads { let r = D.reading (D.settings source.old) in ReadsEntries r (site_of schema.now) in_list (by_element r (site_of schema.now)) (λ element. C.call r) consumer.old (D.state source.old) result consumer.new (D.state source.new) }
{
    source.open_list(schema)?;
    while source.next_element()? {
        if let Err(error) = consumer.element(source) {
            source.fail();
            return Err(error);
        }
    }
    Ok(())
}

// Reads the map that is due.
pub(crate) fn each_entry<C: MapConsumer, D: ShapeDeserializer>(
    source: &mut D,
    schema: &Schema<'_>,
    consumer: &mut C,
) -> Result<(), SerdeError>
    requires place { IsMap (kind_at (site_of schema.now)) }
    requires nulls { GetsNoNull C.takes_nulls (D.dispatches_nulls (D.settings source.old)) }
    ensures same { D.settings source.new ≡ D.settings source.old }
    ensures reads { let r = D.reading (D.settings source.old) in ReadsEntries r (site_of schema.now) in_map (by_key r (site_of schema.now)) (C.call r) consumer.old (D.state source.old) result consumer.new (D.state source.new) }
{
    source.open_map(schema)?;
    while let Some(key) = source.next_key()? {
        if let Err(error) = consumer.entry(key, source) {
            source.fail();
            return Err(error);
        }
    }
    Ok(())
}
