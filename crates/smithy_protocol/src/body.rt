//! The body of a request.
ghost use Rattle.std.specs.Prelude.{◌≡◌, [], Ok, Err, false, IfOk, IfErr};
ghost use Rattle.smithy_shapes.specs.Site.{site_of};
ghost use Rattle.smithy_protocol.specs.Bodies.{HandsOut};

use smithy_schema::{FinishSerializer, Schema, SerdeError, SerializableStruct};

// What a serializer hands out once a structure is written.
pub(crate) fn written_body<S: FinishSerializer + Drop, V: SerializableStruct>(
    mut sink: S,
    schema: &Schema<'_>,
    input: &V,
) -> Result<Vec<u8>, SerdeError>
    requires sound { S.failed sink ≡ false }
    requires outside { S.open_in (S.state sink) ≡ [] }
    ensures ok { IfOk result (λ body. HandsOut S.after S.out V.adds (site_of schema.now) input.now (S.state sink) (Ok body.items)) }
    ensures err { IfErr result (λ e. HandsOut S.after S.out V.adds (site_of schema.now) input.now (S.state sink) (Err e)) }
{
    sink.write_struct(schema, input)?;
    sink.finish()
}
