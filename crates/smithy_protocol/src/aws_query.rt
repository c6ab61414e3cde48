//! The protocol AWS Query.
ghost use Rattle.std.specs.Prelude.{◌≡◌, ◌⊎◌, Ok, Err, Some, None, codes, IfOk, IfErr, IfSome, IsErrOf};
ghost use Rattle.smithy_schema.specs.declared.error.SerdeError.TheVariants.{Missing, NoMemory};
ghost use Rattle.smithy_shapes.specs.Site.{site_of};
ghost use Rattle.smithy_query_codec.specs.Writing.{fresh_state, query_after};
ghost use Rattle.smithy_protocol.specs.Bodies.{HandsOut, IsQueryBody};
ghost use Rattle.smithy_protocol.specs.Messages.{form_names, query_request, message_of};

use crate::body::written_body;
use crate::head::post;
use crate::message::{ProtocolConfig, Request};
use smithy_query_codec::QueryShapeSerializer;
use smithy_schema::{Schema, SerdeError, SerializableStruct};
use std::alloc::Global;
use std::marker::Model;

/// The protocol that posts a structure as a form, with the operation and the version of the service before its leaves.
#[derive(Debug, Drop)]
pub struct AwsQueryProtocol {
    version: Option<String>,
}

impl Model for AwsQueryProtocol {
    ghost use Rattle.std.specs.Prelude.{ℕ, List, Option};
    ghost use Rattle.smithy_protocol.specs.Messages.{text_of};

    ghost Value = { Option (List ℕ) };

    ghost view = { λ p. text_of p.version };
}

// The request of a form of this action and version.
fn form_request<V: SerializableStruct>(
    alloc: Global,
    action: &str,
    version: &str,
    input: &V,
    input_schema: &Schema<'_>,
) -> Result<Request, SerdeError>
    ensures head { IfOk result (λ r. message_of r ≡ query_request r.body.items) }
    ensures body { IfOk result (λ r. HandsOut query_after (λ s. s.out) V.adds (site_of input_schema.now) input.now (fresh_state action.now version.now) (Ok r.body.items)) }
    ensures canonical { IfOk result (λ r. IsQueryBody V.adds (site_of input_schema.now) input.now action.now version.now r.body.items) }
    ensures refused { IfErr result (λ e. (e ≡ NoMemory) ⊎ HandsOut query_after (λ s. s.out) V.adds (site_of input_schema.now) input.now (fresh_state action.now version.now) (Err e)) }
{
    let sink = QueryShapeSerializer::new(alloc, action, version)?;
    let body = written_body(sink, input_schema, input)?;
    let uri = String::from_str(alloc, "/")?;
    let request = post(alloc, uri, "application/x-www-form-urlencoded", body)?;
    Ok(request)
}

impl AwsQueryProtocol {
    ghost use Rattle.std.specs.Prelude.{◌≡◌, Some, None, string_bytes};

    /// The protocol, without a version of its own.
    pub fn new() -> AwsQueryProtocol
        ensures { result ≡ None }
    {
        AwsQueryProtocol { version: None }
    }

    /// The protocol with a version that counts in place of the configuration's.
    pub fn with_service_version(self, version: String) -> AwsQueryProtocol
        ensures { result ≡ Some (string_bytes version) }
    {
        AwsQueryProtocol {
            version: Some(version),
        }
    }

    /// The identifier of the protocol's trait.
    pub fn protocol_id(&self) -> &str
        ensures { result.now ≡ codes "aws.protocols#awsQuery" }
    {
        "aws.protocols#awsQuery"
    }

    /// The request that has the form of a structure as its body, with the operation of the configuration as its action, and the version
    /// that is set, else that of the configuration. Where the operation or both versions are absent, the answer is `Missing`. Else an
    /// error is want of memory, or what a serializer of forms or the structure's own calls answer. The endpoint isn't looked at: the
    /// request goes to `/`.
    pub fn serialize_request<V: SerializableStruct>(
        &self,
        alloc: Global,
        input: &V,
        input_schema: &Schema<'_>,
        _endpoint: &str,
        config: &ProtocolConfig,
    ) -> Result<Request, SerdeError>
        ensures missing { form_names self.now config.now ≡ None → IsErrOf result Missing }
        ensures head { IfOk result (λ r. message_of r ≡ query_request r.body.items) }
        ensures body { IfOk result (λ r. IfSome (form_names self.now config.now) (λ n. HandsOut query_after (λ s. s.out) V.adds (site_of input_schema.now) input.now (fresh_state n.0 n.1) (Ok r.body.items))) }
        ensures canonical { IfOk result (λ r. IfSome (form_names self.now config.now) (λ n. IsQueryBody V.adds (site_of input_schema.now) input.now n.0 n.1 r.body.items)) }
        ensures refused { IfErr result (λ e. IfSome (form_names self.now config.now) (λ n. (e ≡ NoMemory) ⊎ HandsOut query_after (λ s. s.out) V.adds (site_of input_schema.now) input.now (fresh_state n.0 n.1) (Err e))) }
    {
        let Some(action) = config.operation.as_deref() else {
            return Err(SerdeError::Missing);
        };
        let Some(version) = self.version.as_deref().or(config.version.as_deref()) else {
            return Err(SerdeError::Missing);
        };
        form_request(alloc, action, version, input, input_schema)
    }
}

impl Default for AwsQueryProtocol {
    ghost is_default = { λ p. p ≡ None };

    fn default() -> AwsQueryProtocol {
        AwsQueryProtocol::new()
    }
}
