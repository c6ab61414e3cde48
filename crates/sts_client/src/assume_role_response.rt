//! The structure `AssumeRoleResponse`.
ghost use Rattle.std.specs.Prelude.{◌≡◌, false, OnOk};
ghost use Rattle.smithy_shapes.specs.Site.{site_of};
ghost use Rattle.smithy_schema.specs.Consuming.{IsTaken};
ghost use Rattle.smithy_schema.specs.Typed.{ReadsDueAs, WritesWhole};
ghost use Rattle.smithy_schema.specs.Writing.{events};
ghost use Rattle.sts_client.specs.OfAssumeRoleResponse.{IsAssumeRoleResponse, assume_role_response_value};

use crate::assumed_role_user::AssumedRoleUser;
use crate::credentials::Credentials;
use smithy_schema::{Schema, SerdeError, ShapeDeserializer, ShapeSerializer, WriteFields};
use smithy_typed::{
    Field, FieldRef, FromFields, NoField, Typed, WriteFieldList, is_structure_of, read_root,
    read_structure, write_root, write_structure,
};

/// A role that was taken on.
#[derive(Drop)]
pub struct AssumeRoleResponse {
    /// `Credentials`: Keys for the session.
    pub credentials: Option<Credentials>,
    /// `AssumedRoleUser`: Who takes on the role.
    pub assumed_role_user: Option<AssumedRoleUser>,
    /// `PackedPolicySize`: How much of the room for policies and tags is taken, in per cent.
    pub packed_policy_size: Option<i32>,
    /// `SourceIdentity`: Who asked for the role.
    pub source_identity: Option<String>,
}

// Its fields, one inside another.
type Fields = Field<Credentials, Field<AssumedRoleUser, Field<i32, Field<String, NoField>>>>;

impl FromFields<Fields> for AssumeRoleResponse {
    ghost use Rattle.sts_client.specs.OfAssumeRoleResponse.{assume_role_response_names, assume_role_response_fields};

    ghost names = { assume_role_response_names };

    ghost made = { assume_role_response_fields };

    fn from_fields(list: Fields) -> AssumeRoleResponse {
        let Field {
            value: credentials,
            rest,
        } = list;
        let Field {
            value: assumed_role_user,
            rest,
        } = rest;
        let Field {
            value: packed_policy_size,
            rest,
        } = rest;
        let Field {
            value: source_identity,
            rest: _,
        } = rest;
        AssumeRoleResponse {
            credentials,
            assumed_role_user,
            packed_policy_size,
            source_identity,
        }
    }
}

impl WriteFields for AssumeRoleResponse {
    ghost use Rattle.sts_client.specs.OfAssumeRoleResponse.{assume_role_response_fields};

    ghost fields = { assume_role_response_fields };

    fn write_fields<S: ShapeSerializer>(
        &self,
        sink: &mut S,
        shape: &Schema<'_>,
    ) -> Result<(), SerdeError> {
        let rest = FieldRef {
            value: &self.source_identity,
            rest: NoField,
        };
        let rest = FieldRef {
            value: &self.packed_policy_size,
            rest,
        };
        let rest = FieldRef {
            value: &self.assumed_role_user,
            rest,
        };
        let rest = FieldRef {
            value: &self.credentials,
            rest,
        };
        rest.write_from(sink, shape, 0)
    }
}

impl Typed for AssumeRoleResponse {
    ghost use Rattle.sts_client.specs.OfAssumeRoleResponse.{IsAssumeRoleResponse, assume_role_response_value};

    ghost value = { assume_role_response_value };

    ghost place = { IsAssumeRoleResponse };

    fn is_at(schema: &Schema<'_>) -> bool {
        is_structure_of::<Fields>(
            schema,
            &[
                "Credentials",
                "AssumedRoleUser",
                "PackedPolicySize",
                "SourceIdentity",
            ],
        )
    }

    fn read_from<D: ShapeDeserializer>(
        source: &mut D,
        schema: &Schema<'_>,
    ) -> Result<AssumeRoleResponse, SerdeError> {
        read_structure::<AssumeRoleResponse, Fields, D>(source, schema)
    }

    fn write_to<S: ShapeSerializer>(
        &self,
        sink: &mut S,
        schema: &Schema<'_>,
    ) -> Result<(), SerdeError> {
        write_structure(sink, schema, self)
    }
}

/// Reads `AssumeRoleResponse` as the root of a body. Nulls of members are dropped.
pub fn read_assume_role_response<D: ShapeDeserializer>(
    schema: &Schema<'_>,
    source: &mut D,
) -> Result<AssumeRoleResponse, SerdeError>
    requires place { IsAssumeRoleResponse (site_of schema.now) }
    ensures same { D.settings source.new ≡ D.settings source.old }
    ensures reads { ReadsDueAs (D.reading (D.with_nulls false (D.settings source.old))).wire (D.state source.old) (D.state source.new) (site_of schema.now) assume_role_response_value result }
    ensures takes { OnOk result (IsTaken (D.state source.old) (D.state source.new)) }
{
    read_root::<AssumeRoleResponse, Fields, D>(source, schema)
}

/// Writes `AssumeRoleResponse` as the root of a body.
pub fn write_assume_role_response<S: ShapeSerializer>(
    sink: &mut S,
    schema: &Schema<'_>,
    value: &AssumeRoleResponse,
) -> Result<(), SerdeError>
    ensures { WritesWhole S.after S.open_in (events (site_of schema.now) (assume_role_response_value value.now)) (S.state sink.old) (S.failed sink.old) (S.state sink.new) (S.failed sink.new) result }
{
    write_root(sink, schema, value)
}
