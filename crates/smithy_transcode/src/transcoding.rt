//! One body from wire to wire.
ghost use Rattle.smithy_declarations.specs.Table.{IsStructure, kind_of, shape_place};
ghost use Rattle.smithy_transcode.specs.Transcoding.{Transcodes};
ghost use Rattle.smithy_transcode.specs.Wires.{wire_of};

use crate::expressing::unfit;
use crate::pool_input::read_whole;
use crate::refusal::refusal;
use crate::whole_output::write_whole;
use crate::wire::{TranscodeError, Wire};
use smithy_schema::{ShapeRef, Shapes};
use smithy_tree::Pool;
use std::alloc::Global;

/// Writes the value that the whole input spells in the wire `from`, in its one canonical body in the wire
/// `to`. The root is a structure of the table. The whole value is read before anything is written.
///
/// Forms are not read: as `from` the wire answers `InvalidInput`. Places in the tree are 32 bits wide: where a text, a key or bytes begin past
/// 4 GiB, counted with those that have to be copied, the answer is `NoMemory`.
pub fn transcode(
    alloc: Global,
    shapes: &Shapes,
    root: ShapeRef,
    from: &Wire,
    input: &[u8],
    to: &Wire,
) -> Result<Vec<u8>, TranscodeError>
    requires root { IsStructure (kind_of shapes.now (shape_place root.0)) }
    ensures { Transcodes shapes.now root.0 (wire_of from.now) input.now (wire_of to.now) result }
{
    let mut pool = Pool::new(alloc, input);
    let value = match read_whole(alloc, shapes, root, from, input, &mut pool) {
        Ok(value) => value,
        Err(error) => return Err(refusal(error)),
    };
    if let Some(lacking) = unfit(&pool, &shapes.schema(root), &value, to) {
        return Err(TranscodeError::Inexpressible(lacking));
    }
    match write_whole(alloc, shapes, root, to, &pool, &value) {
        Ok(body) => Ok(body),
        Err(error) => Err(refusal(error)),
    }
}
