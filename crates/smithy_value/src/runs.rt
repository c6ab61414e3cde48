//! Whole numbers of a list, as many at once as the reader takes.
ghost use Rattle.std.specs.Prelude.{◌≡◌, Some, ℕ, List};
ghost use Rattle.smithy_declarations.specs.declared.shape_type.ShapeType.TheVariants as types;
ghost use Rattle.smithy_declarations.specs.Table.{type_of};
ghost use Rattle.smithy_shapes.specs.Site.{site_of, kind_at};
ghost use Rattle.smithy_schema.specs.Reading.{in_list};
ghost use Rattle.smithy_value.specs.Private.Runs.{ReadsRun};

use crate::tree::Trees;
use smithy_schema::{Schema, SerdeError, ShapeDeserializer, ShapeType};

// How many numbers are read in one call at most.
const ROOM: usize = 64;

// Reads the longs that come next in the list.
#[inline(never)]
fn read_longs<P: Trees, D: ShapeDeserializer>(
    source: &mut D,
    trees: &mut P,
    element: &Schema<'_>,
    elements: &mut P::Elements,
) -> Result<(), SerdeError>
    requires within { (D.state source.old).inner.within ≡ in_list }
    requires begun { (p : P) × (i : List ℕ) × P.sound p i × P.begun_elements p trees.old elements.old }
    requires long { Some types.Long ≡ type_of (kind_at (site_of element.now)) }
    ensures { ReadsRun D.ShapeDeserializer P.begun_elements P.view_elements source.old source.new trees.old trees.new elements.old elements.new (site_of element.now) result }
{
    let mut room = [0; ROOM];
    let count = source.read_longs(element, &mut room);
    trees.push_numbers(elements, &room[..count])
}

/// Reads elements that come next in the list, if they are longs and as far as the reader takes them at once.
#[inline(always)]
pub(crate) fn read_run<P: Trees, D: ShapeDeserializer>(
    source: &mut D,
    trees: &mut P,
    kind: ShapeType,
    element: &Schema<'_>,
    elements: &mut P::Elements,
) -> Result<(), SerdeError>
    requires within { (D.state source.old).inner.within ≡ in_list }
    requires begun { (p : P) × (i : List ℕ) × P.sound p i × P.begun_elements p trees.old elements.old }
    requires kind { Some kind ≡ type_of (kind_at (site_of element.now)) }
    ensures { ReadsRun D.ShapeDeserializer P.begun_elements P.view_elements source.old source.new trees.old trees.new elements.old elements.new (site_of element.now) result }
{
    if let ShapeType::Long = kind {
        return read_longs::<P, D>(source, trees, element, elements);
    }
    Ok(())
}
