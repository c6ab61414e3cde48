//! The structure `AssumedRoleUser`.

use smithy_schema::{Schema, SerdeError, ShapeDeserializer, ShapeSerializer, WriteFields};
use smithy_typed::{
    Field, FieldRef, FromFields, NoField, Typed, WriteFieldList, is_structure_of, read_structure,
    write_structure,
};

/// Who takes on a role.
#[derive(Drop)]
pub struct AssumedRoleUser {
    /// `AssumedRoleId`: The identifier of the role and the session.
    pub assumed_role_id: Option<String>,
    /// `Arn`: The name of the user.
    pub arn: Option<String>,
}

// Its fields, one inside another.
type Fields = Field<String, Field<String, NoField>>;

impl FromFields<Fields> for AssumedRoleUser {
    ghost use Rattle.sts_client.specs.OfAssumedRoleUser.{assumed_role_user_names, assumed_role_user_fields};

    ghost names = { assumed_role_user_names };

    ghost made = { assumed_role_user_fields };

    fn from_fields(list: Fields) -> AssumedRoleUser {
        let Field {
            value: assumed_role_id,
            rest,
        } = list;
        let Field {
            value: arn,
            rest: _,
        } = rest;
        AssumedRoleUser {
            assumed_role_id,
            arn,
        }
    }
}

impl WriteFields for AssumedRoleUser {
    ghost use Rattle.sts_client.specs.OfAssumedRoleUser.{assumed_role_user_fields};

    ghost fields = { assumed_role_user_fields };

    fn write_fields<S: ShapeSerializer>(
        &self,
        sink: &mut S,
        shape: &Schema<'_>,
    ) -> Result<(), SerdeError> {
        let rest = FieldRef {
            value: &self.arn,
            rest: NoField,
        };
        let rest = FieldRef {
            value: &self.assumed_role_id,
            rest,
        };
        rest.write_from(sink, shape, 0)
    }
}

impl Typed for AssumedRoleUser {
    ghost use Rattle.sts_client.specs.OfAssumedRoleUser.{IsAssumedRoleUser, assumed_role_user_value};

    ghost value = { assumed_role_user_value };

    ghost place = { IsAssumedRoleUser };

    fn is_at(schema: &Schema<'_>) -> bool {
        is_structure_of::<Fields>(schema, &["AssumedRoleId", "Arn"])
    }

    fn read_from<D: ShapeDeserializer>(
        source: &mut D,
        schema: &Schema<'_>,
    ) -> Result<AssumedRoleUser, SerdeError> {
        read_structure::<AssumedRoleUser, Fields, D>(source, schema)
    }

    fn write_to<S: ShapeSerializer>(
        &self,
        sink: &mut S,
        schema: &Schema<'_>,
    ) -> Result<(), SerdeError> {
        write_structure(sink, schema, self)
    }
}
