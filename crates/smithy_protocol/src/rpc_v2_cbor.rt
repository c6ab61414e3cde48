//! The protocol Smithy RPC v2 CBOR.
ghost use Rattle.std.specs.Prelude.{◌≡◌, ◌⊎◌, Ok, Err, codes, IfOk, IfErr};
ghost use Rattle.smithy_schema.specs.declared.error.SerdeError.TheVariants.{NoMemory};
ghost use Rattle.smithy_shapes.specs.Site.{site_of};
ghost use Rattle.smithy_cbor_body.specs.Codec.{strict_settings, default_settings};
ghost use Rattle.smithy_cbor_codec.specs.Cursor.{cursor_of, reading_settings_of};
ghost use Rattle.smithy_cbor_body.specs.Prefixes.{fresh_state, cbor_after};
ghost use Rattle.smithy_wire.specs.Walking.{fresh_cursor};
ghost use Rattle.smithy_protocol.specs.Bodies.{HandsOut, IsCborBody};
ghost use Rattle.smithy_error_bodies.specs.CborErrors.{CborSays};
ghost use Rattle.smithy_protocol.specs.ErrorAnswers.{cbor_metadata, SaysMetadata, IsRefusedAnswer};
ghost use Rattle.smithy_protocol.specs.Messages.{cbor_request, message_of};

use crate::body::written_body;
use crate::error_answer::{error_builder, refused};
use crate::head::{operation_uri, post};
use crate::message::{ProtocolConfig, Request, Response};
use smithy_cbor_codec::{CborCodec, CborDeserializer};
use smithy_error_bodies::{ErrorBody, read_cbor_error};
use smithy_error_metadata::Builder;
use smithy_schema::{Schema, SerdeError, SerializableStruct};
use std::alloc::Global;

// The body in CBOR of a structure.
fn cbor_body<V: SerializableStruct>(
    alloc: Global,
    schema: &Schema<'_>,
    input: &V,
) -> Result<Vec<u8>, SerdeError>
    ensures ok { IfOk result (λ body. HandsOut cbor_after (λ s. s.body.out) V.adds (site_of schema.now) input.now (fresh_state strict_settings) (Ok body.items)) }
    ensures err { IfErr result (λ e. HandsOut cbor_after (λ s. s.body.out) V.adds (site_of schema.now) input.now (fresh_state strict_settings) (Err e)) }
    ensures canonical { IfOk result (λ body. IsCborBody V.adds (site_of schema.now) input.now body.items) }
{
    let sink = CborCodec::strict().create_serializer(alloc);
    written_body(sink, schema, input)
}

/// The protocol that posts a structure as CBOR, to the address of the operation.
#[derive(Clone, Copy, Debug, Default)]
pub struct RpcV2CborProtocol;

impl RpcV2CborProtocol {
    /// The protocol.
    pub fn new() -> RpcV2CborProtocol {
        RpcV2CborProtocol
    }

    /// The identifier of the protocol's trait.
    pub fn protocol_id(&self) -> &str
        ensures { result.now ≡ codes "smithy.protocols#rpcv2Cbor" }
    {
        "smithy.protocols#rpcv2Cbor"
    }

    /// The request that has a structure as its body. It goes to the path of the operation where the configuration has the names of
    /// the operation and of its service, and else to the endpoint, an empty one being `/`. An error is want of memory, or what a
    /// serializer of CBOR answers for the structure.
    pub fn serialize_request<V: SerializableStruct>(
        &self,
        alloc: Global,
        input: &V,
        input_schema: &Schema<'_>,
        endpoint: &str,
        config: &ProtocolConfig,
    ) -> Result<Request, SerdeError>
        ensures head { IfOk result (λ r. message_of r ≡ cbor_request endpoint.now config.now r.body.items) }
        ensures body { IfOk result (λ r. HandsOut cbor_after (λ s. s.body.out) V.adds (site_of input_schema.now) input.now (fresh_state strict_settings) (Ok r.body.items)) }
        ensures canonical { IfOk result (λ r. IsCborBody V.adds (site_of input_schema.now) input.now r.body.items) }
        ensures refused { IfErr result (λ e. (e ≡ NoMemory) ⊎ HandsOut cbor_after (λ s. s.body.out) V.adds (site_of input_schema.now) input.now (fresh_state strict_settings) (Err e)) }
    {
        let body = cbor_body(alloc, input_schema, input)?;
        let uri = operation_uri(alloc, endpoint, config)?;
        let mut request = post(alloc, uri, "application/cbor", body)?;
        request
            .headers
            .push(alloc, "smithy-protocol", "rpc-v2-cbor")?;
        request.headers.push(alloc, "accept", "application/cbor")?;
        Ok(request)
    }

    /// A reader of the body of a response, of which nothing is read yet. It takes no memory.
    pub fn deserialize_response<'a>(
        &self,
        alloc: Global,
        response: &'a Response,
        _config: &ProtocolConfig,
    ) -> CborDeserializer<'a>
        ensures settings { reading_settings_of result ≡ default_settings }
        ensures fresh { cursor_of result ≡ fresh_cursor response.now.body.items }
    {
        CborCodec::default().create_deserializer(alloc, &response.body)
    }
    /// What an error answer says: the code that the body has under `__type`, without its namespace and address, and its message. A
    /// header `x-amzn-query-error` with a `;` counts over the code, and its second part is the value `type` beside them. An error is
    /// want of memory, or `InvalidInput`, as `read_cbor_error` of smithy_error_bodies says of the body.
    pub fn parse_error_metadata(
        &self,
        alloc: Global,
        response: &Response,
    ) -> Result<Builder, SerdeError>
        ensures said { IfOk result (λ b. SaysMetadata CborSays (cbor_metadata response.now.headers) response.now.body.items b.metadata) }
        ensures refused { IfErr result (IsRefusedAnswer CborSays response.now.body.items) }
    {
        let body = match read_cbor_error(alloc, &response.body) {
            Ok(body) => body,
            Err(fault) => return Err(refused(fault)),
        };
        let ErrorBody { code, message } = body;
        Ok(error_builder(alloc, &response.headers, code.as_deref(), message)?)
    }
}
