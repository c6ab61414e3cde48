//! All that a codec is asked for.
ghost use Rattle.std.specs.Prelude.{◌≡◌, IfOk, option_map};
ghost use Rattle.smithy_json_settings.specs.Settings.{held_settings};

use crate::settings::Settings;
use smithy_shapes::ShapeId;
use smithy_types::Format;
use std::alloc::{AllocError, Global};
use std::borrow::CowStr;
use std::marker::Model;

/// The settings of a codec. Contracts see them as one record (`CodecSettings`).
#[derive(Debug, Drop)]
pub struct JsonCodecSettings {
    pub(crate) json: Settings,
    pub(crate) protocol_id: ShapeId,
    pub(crate) default_namespace: Option<String>,
}

impl Model for JsonCodecSettings {
    ghost use Rattle.std.specs.Prelude.{option_map, string_bytes};
    ghost use Rattle.smithy_json_settings.specs.Settings.{CodecSettings, held_settings};

    ghost Value = { CodecSettings };

    ghost view = { λ s. record {
      json = held_settings s.json;
      protocol_id = s.protocol_id;
      default_namespace = option_map string_bytes s.default_namespace;
    } };
}

impl Default for JsonCodecSettings {
    ghost use Rattle.smithy_json_settings.specs.Settings.{default_codec_settings};

    ghost is_default = { λ s. s ≡ default_codec_settings };

    /// Those of a client where none is set. They take no memory.
    fn default() -> JsonCodecSettings {
        JsonCodecSettings {
            json: Settings::default(),
            protocol_id: ShapeId::new(CowStr::Borrowed("aws.smithy.json#JsonCodec")),
            default_namespace: None,
        }
    }
}

impl JsonCodecSettings {
    ghost use Rattle.smithy_json_settings.specs.Settings.{strict_codec_settings};

    /// Those of a codec that reads RFC 8259 to the letter. They take no memory.
    pub fn strict(use_json_name: bool) -> JsonCodecSettings
        ensures { result ≡ strict_codec_settings use_json_name }
    {
        let mut settings = JsonCodecSettings::default();
        settings.json = Settings::strict(use_json_name);
        settings
    }

    /// Equal settings, in memory of their own.
    pub fn clone_in(&self, alloc: Global) -> Result<JsonCodecSettings, AllocError>
        ensures { IfOk result (λ s. s ≡ self.now) }
    {
        let protocol_id = String::from_str(alloc, self.protocol_id.as_str())?;
        let default_namespace = match &self.default_namespace {
            Some(namespace) => Some(String::from_str(alloc, namespace.as_str())?),
            None => None,
        };
        Ok(JsonCodecSettings {
            json: self.json,
            protocol_id: ShapeId::new(CowStr::Owned(protocol_id)),
            default_namespace,
        })
    }

    /// All that decides how bodies are read and written.
    pub fn chosen(&self) -> Settings
        ensures { held_settings result ≡ self.now.json }
    {
        self.json
    }

    /// Whether nulls of structures and unions go to the consumer.
    pub fn dispatch_null_members(&self) -> bool
        ensures { result ≡ self.now.json.dispatch_null_members }
    {
        self.json.dispatch_null_members
    }

    /// Whether a number stands for an instant under epoch seconds alone, and a string under the other forms alone.
    pub fn strict_timestamp_formats(&self) -> bool
        ensures { result ≡ self.now.json.strict_timestamp_formats }
    {
        self.json.strict_timestamp_formats
    }

    /// Whether big numbers are written as strings.
    pub fn use_string_for_arbitrary_precision(&self) -> bool
        ensures { result ≡ self.now.json.use_string_for_arbitrary_precision }
    {
        self.json.use_string_for_arbitrary_precision
    }

    /// Whether the text of a big number that is no JSON number is rewritten as one.
    pub fn normalize_arbitrary_precision(&self) -> bool
        ensures { result ≡ self.now.json.normalize_arbitrary_precision }
    {
        self.json.normalize_arbitrary_precision
    }

    /// The form of instants at a place without one.
    pub fn default_timestamp_format(&self) -> Format
        ensures { result ≡ self.now.json.default_timestamp_format }
    {
        self.json.default_timestamp_format
    }

    /// How many containers may be open at once, with the parts of documents and what is skipped.
    pub fn max_depth(&self) -> u32
        ensures { result ≡ self.now.json.max_depth }
    {
        self.json.max_depth as u32
    }

    /// The namespace of a relative name under `__type`.
    pub fn default_namespace(&self) -> Option<&str>
        ensures { option_map (λ text. text.now) result ≡ self.now.default_namespace }
    {
        self.default_namespace.as_deref()
    }

    /// The identifier of the protocol, which documents carry.
    pub fn protocol_id(&self) -> &str
        ensures { result.now ≡ self.now.protocol_id }
    {
        self.protocol_id.as_str()
    }
}
