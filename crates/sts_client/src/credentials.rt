//! The structure `Credentials`.
ghost use Rattle.std.specs.Prelude.{◌≡◌, false, OnOk};
ghost use Rattle.smithy_shapes.specs.Site.{site_of};
ghost use Rattle.smithy_schema.specs.Consuming.{IsTaken};
ghost use Rattle.smithy_schema.specs.Typed.{ReadsDueAs, WritesWhole};
ghost use Rattle.smithy_schema.specs.Writing.{events};
ghost use Rattle.sts_client.specs.OfCredentials.{IsCredentials, credentials_value};

use smithy_schema::{Schema, SerdeError, ShapeDeserializer, ShapeSerializer, WriteFields};
use smithy_typed::{
    Field, FieldRef, FromFields, NoField, Typed, WriteFieldList, is_structure_of, read_root,
    read_structure, write_root, write_structure,
};
use smithy_types::DateTime;

/// Keys that stand for a role for a while.
#[derive(Drop)]
pub struct Credentials {
    /// `AccessKeyId`: The identifier of the key.
    pub access_key_id: Option<String>,
    /// `SecretAccessKey`: The key that signs requests.
    pub secret_access_key: Option<String>,
    /// `SessionToken`: The token that goes with each request.
    pub session_token: Option<String>,
    /// `Expiration`: When the keys stop to hold.
    pub expiration: Option<DateTime>,
}

// Its fields, one inside another.
type Fields = Field<String, Field<String, Field<String, Field<DateTime, NoField>>>>;

impl FromFields<Fields> for Credentials {
    ghost use Rattle.sts_client.specs.OfCredentials.{credentials_names, credentials_fields};

    ghost names = { credentials_names };

    ghost made = { credentials_fields };

    fn from_fields(list: Fields) -> Credentials {
        let Field {
            value: access_key_id,
            rest,
        } = list;
        let Field {
            value: secret_access_key,
            rest,
        } = rest;
        let Field {
            value: session_token,
            rest,
        } = rest;
        let Field {
            value: expiration,
            rest: _,
        } = rest;
        Credentials {
            access_key_id,
            secret_access_key,
            session_token,
            expiration,
        }
    }
}

impl WriteFields for Credentials {
    ghost use Rattle.sts_client.specs.OfCredentials.{credentials_fields};

    ghost fields = { credentials_fields };

    fn write_fields<S: ShapeSerializer>(
        &self,
        sink: &mut S,
        shape: &Schema<'_>,
    ) -> Result<(), SerdeError> {
        let rest = FieldRef {
            value: &self.expiration,
            rest: NoField,
        };
        let rest = FieldRef {
            value: &self.session_token,
            rest,
        };
        let rest = FieldRef {
            value: &self.secret_access_key,
            rest,
        };
        let rest = FieldRef {
            value: &self.access_key_id,
            rest,
        };
        rest.write_from(sink, shape, 0)
    }
}

impl Typed for Credentials {
    ghost use Rattle.sts_client.specs.OfCredentials.{IsCredentials, credentials_value};

    ghost value = { credentials_value };

    ghost place = { IsCredentials };

    fn is_at(schema: &Schema<'_>) -> bool {
        is_structure_of::<Fields>(
            schema,
            &[
                "AccessKeyId",
                "SecretAccessKey",
                "SessionToken",
                "Expiration",
            ],
        )
    }

    fn read_from<D: ShapeDeserializer>(
        source: &mut D,
        schema: &Schema<'_>,
    ) -> Result<Credentials, SerdeError> {
        read_structure::<Credentials, Fields, D>(source, schema)
    }

    fn write_to<S: ShapeSerializer>(
        &self,
        sink: &mut S,
        schema: &Schema<'_>,
    ) -> Result<(), SerdeError> {
        write_structure(sink, schema, self)
    }
}

/// Reads `Credentials` as the root of a body. Nulls of members are dropped.
pub fn read_credentials<D: ShapeDeserializer>(
    schema: &Schema<'_>,
    source: &mut D,
) -> Result<Credentials, SerdeError>
    requires place { IsCredentials (site_of schema.now) }
    ensures same { D.settings source.new ≡ D.settings source.old }
    ensures reads { ReadsDueAs (D.reading (D.with_nulls false (D.settings source.old))).wire (D.state source.old) (D.state source.new) (site_of schema.now) credentials_value result }
    ensures takes { OnOk result (IsTaken (D.state source.old) (D.state source.new)) }
{
    read_root::<Credentials, Fields, D>(source, schema)
}

/// Writes `Credentials` as the root of a body.
pub fn write_credentials<S: ShapeSerializer>(
    sink: &mut S,
    schema: &Schema<'_>,
    value: &Credentials,
) -> Result<(), SerdeError>
    ensures { WritesWhole S.after S.open_in (events (site_of schema.now) (credentials_value value.now)) (S.state sink.old) (S.failed sink.old) (S.state sink.new) (S.failed sink.new) result }
{
    write_root(sink, schema, value)
}
