//! The structure `AssumeRoleRequest`.
ghost use Rattle.std.specs.Prelude.{◌≡◌, false, OnOk};
ghost use Rattle.smithy_shapes.specs.Site.{site_of};
ghost use Rattle.smithy_schema.specs.Consuming.{IsTaken};
ghost use Rattle.smithy_schema.specs.Typed.{ReadsDueAs, WritesWhole};
ghost use Rattle.smithy_schema.specs.Writing.{events};
ghost use Rattle.sts_client.specs.OfAssumeRoleRequest.{IsAssumeRoleRequest, assume_role_request_value};

use crate::tag::Tag;
use smithy_schema::{Schema, SerdeError, ShapeDeserializer, ShapeSerializer, WriteFields};
use smithy_typed::{
    Field, FieldRef, FromFields, NoField, Typed, WriteFieldList, is_structure_of, read_root,
    read_structure, write_root, write_structure,
};

/// A role to take on for a while.
#[derive(Drop)]
pub struct AssumeRoleRequest {
    /// `RoleArn`: The name of the role to take on.
    pub role_arn: Option<String>,
    /// `RoleSessionName`: The name of the session.
    pub role_session_name: Option<String>,
    /// `Policy`: A policy that holds for the session only.
    pub policy: Option<String>,
    /// `DurationSeconds`: How long the session lasts.
    pub duration_seconds: Option<i32>,
    /// `Tags`: The tags of the session.
    pub tags: Option<Vec<Tag>>,
}

// Its fields, one inside another.
type Fields = Field<String, Field<String, Field<String, Field<i32, Field<Vec<Tag>, NoField>>>>>;

impl FromFields<Fields> for AssumeRoleRequest {
    ghost use Rattle.sts_client.specs.OfAssumeRoleRequest.{assume_role_request_names, assume_role_request_fields};

    ghost names = { assume_role_request_names };

    ghost made = { assume_role_request_fields };

    fn from_fields(list: Fields) -> AssumeRoleRequest {
        let Field {
            value: role_arn,
            rest,
        } = list;
        let Field {
            value: role_session_name,
            rest,
        } = rest;
        let Field {
            value: policy,
            rest,
        } = rest;
        let Field {
            value: duration_seconds,
            rest,
        } = rest;
        let Field {
            value: tags,
            rest: _,
        } = rest;
        AssumeRoleRequest {
            role_arn,
            role_session_name,
            policy,
            duration_seconds,
            tags,
        }
    }
}

impl WriteFields for AssumeRoleRequest {
    ghost use Rattle.sts_client.specs.OfAssumeRoleRequest.{assume_role_request_fields};

    ghost fields = { assume_role_request_fields };

    fn write_fields<S: ShapeSerializer>(
        &self,
        sink: &mut S,
        shape: &Schema<'_>,
    ) -> Result<(), SerdeError> {
        let rest = FieldRef {
            value: &self.tags,
            rest: NoField,
        };
        let rest = FieldRef {
            value: &self.duration_seconds,
            rest,
        };
        let rest = FieldRef {
            value: &self.policy,
            rest,
        };
        let rest = FieldRef {
            value: &self.role_session_name,
            rest,
        };
        let rest = FieldRef {
            value: &self.role_arn,
            rest,
        };
        rest.write_from(sink, shape, 0)
    }
}

impl Typed for AssumeRoleRequest {
    ghost use Rattle.sts_client.specs.OfAssumeRoleRequest.{IsAssumeRoleRequest, assume_role_request_value};

    ghost value = { assume_role_request_value };

    ghost place = { IsAssumeRoleRequest };

    fn is_at(schema: &Schema<'_>) -> bool {
        is_structure_of::<Fields>(
            schema,
            &[
                "RoleArn",
                "RoleSessionName",
                "Policy",
                "DurationSeconds",
                "Tags",
            ],
        )
    }

    fn read_from<D: ShapeDeserializer>(
        source: &mut D,
        schema: &Schema<'_>,
    ) -> Result<AssumeRoleRequest, SerdeError> {
        read_structure::<AssumeRoleRequest, Fields, D>(source, schema)
    }

    fn write_to<S: ShapeSerializer>(
        &self,
        sink: &mut S,
        schema: &Schema<'_>,
    ) -> Result<(), SerdeError> {
        write_structure(sink, schema, self)
    }
}

/// Reads `AssumeRoleRequest` as the root of a body. Nulls of members are dropped.
pub fn read_assume_role_request<D: ShapeDeserializer>(
    schema: &Schema<'_>,
    source: &mut D,
) -> Result<AssumeRoleRequest, SerdeError>
    requires place { IsAssumeRoleRequest (site_of schema.now) }
    ensures same { D.settings source.new ≡ D.settings source.old }
    ensures reads { ReadsDueAs (D.reading (D.with_nulls false (D.settings source.old))).wire (D.state source.old) (D.state source.new) (site_of schema.now) assume_role_request_value result }
    ensures takes { OnOk result (IsTaken (D.state source.old) (D.state source.new)) }
{
    read_root::<AssumeRoleRequest, Fields, D>(source, schema)
}

/// Writes `AssumeRoleRequest` as the root of a body.
pub fn write_assume_role_request<S: ShapeSerializer>(
    sink: &mut S,
    schema: &Schema<'_>,
    value: &AssumeRoleRequest,
) -> Result<(), SerdeError>
    ensures { WritesWhole S.after S.open_in (events (site_of schema.now) (assume_role_request_value value.now)) (S.state sink.old) (S.failed sink.old) (S.state sink.new) (S.failed sink.new) result }
{
    write_root(sink, schema, value)
}
