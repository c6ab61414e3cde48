//! Settings in the making.
ghost use Rattle.std.specs.Prelude.{◌≡◌, ◌≤◌, IfOk};
ghost use Rattle.smithy_json_settings.specs.Settings.{default_codec_settings};

use crate::codec_settings::JsonCodecSettings;
use crate::settings::Settings;
use smithy_shapes::ShapeId;
use smithy_types::Format;
use std::alloc::{AllocError, Global};
use std::marker::Model;

/// Settings in the making: each call sets one of them, and the last call counts. Contracts see them as the settings that are
/// built.
#[derive(Debug, Drop)]
pub struct JsonCodecSettingsBuilder {
    json: Settings,
    protocol_id: ShapeId,
    default_namespace: Option<String>,
}

impl Model for JsonCodecSettingsBuilder {
    ghost use Rattle.std.specs.Prelude.{option_map, string_bytes};
    ghost use Rattle.smithy_json_settings.specs.Settings.{CodecSettings, held_settings};

    ghost Value = { CodecSettings };

    ghost view = { λ b. record {
      json = held_settings b.json;
      protocol_id = b.protocol_id;
      default_namespace = option_map string_bytes b.default_namespace;
    } };
}

impl Default for JsonCodecSettingsBuilder {
    ghost is_default = { λ b. b ≡ default_codec_settings };

    fn default() -> JsonCodecSettingsBuilder {
        JsonCodecSettings::builder()
    }
}

impl JsonCodecSettings {
    /// A builder with these settings.
    pub fn into_builder(self) -> JsonCodecSettingsBuilder
        ensures { result ≡ self }
    {
        JsonCodecSettingsBuilder {
            json: self.json,
            protocol_id: self.protocol_id,
            default_namespace: self.default_namespace,
        }
    }

    /// A builder with the settings of a client where none is set.
    pub fn builder() -> JsonCodecSettingsBuilder
        ensures { result ≡ default_codec_settings }
    {
        JsonCodecSettings::default().into_builder()
    }

    /// A builder that keeps every setting, in memory of its own.
    pub fn to_builder(&self, alloc: Global) -> Result<JsonCodecSettingsBuilder, AllocError>
        ensures { IfOk result (λ b. b ≡ self.now) }
    {
        let settings = self.clone_in(alloc)?;
        Ok(settings.into_builder())
    }
}

impl JsonCodecSettingsBuilder {
    ghost use Rattle.std.specs.Prelude.{Some, string_bytes};

    /// Members go by their JSON names, where they have one. On by default.
    pub fn use_json_name(mut self, value: bool) -> JsonCodecSettingsBuilder
        ensures { result ≡ record self { json = record self.json { use_json_name = value } } }
    {
        self.json.use_json_name = value;
        self
    }

    /// Numbers are of the grammar, which is that of RFC 8259 but for what is allowed, a value ends at a blank, `,`, `]`, `}` or the
    /// end, strings that are read hold no bytes below 0x20, and only an empty input is read as a structure. Off by default: then an
    /// empty rest is one too.
    pub fn enforce_strictness(mut self, value: bool) -> JsonCodecSettingsBuilder
        ensures { result ≡ record self { json = record self.json { enforce_strictness = value } } }
    {
        self.json.enforce_strictness = value;
        self
    }

    /// Skipped strings hold valid escapes alone. On by default: where it is off a backslash takes any byte.
    pub fn validate_skipped_values(mut self, value: bool) -> JsonCodecSettingsBuilder
        ensures { result ≡ record self { json = record self.json { validate_skipped_values = value } } }
    {
        self.json.validate_skipped_values = value;
        self
    }

    /// Skipped strings are in UTF-8 and hold no bytes below 0x20. Off by default.
    pub fn validate_skipped_string_encoding(mut self, value: bool) -> JsonCodecSettingsBuilder
        ensures { result ≡ record self { json = record self.json { validate_skipped_string_encoding = value } } }
    {
        self.json.validate_skipped_string_encoding = value;
        self
    }

    /// An integer may be written with a fraction or an exponent, where the number is whole and it and the exponent fit 64
    /// bits. Off by default.
    pub fn allow_integral_float_numbers(mut self, value: bool) -> JsonCodecSettingsBuilder
        ensures { result ≡ record self { json = record self.json { allow_integral_float_numbers = value } } }
    {
        self.json.allow_integral_float_numbers = value;
        self
    }

    /// Numbers may begin with zeros, as in `007`. Off by default.
    pub fn allow_leading_zeros(mut self, value: bool) -> JsonCodecSettingsBuilder
        ensures { result ≡ record self { json = record self.json { numbers = record self.json.numbers { allow_leading_zeros = value } } } }
    {
        self.json.numbers.allow_leading_zeros = value;
        self
    }

    /// Numbers may end with a point, as in `12.`. Off by default.
    pub fn allow_trailing_decimal_point(mut self, value: bool) -> JsonCodecSettingsBuilder
        ensures { result ≡ record self { json = record self.json { numbers = record self.json.numbers { allow_trailing_decimal_point = value } } } }
    {
        self.json.numbers.allow_trailing_decimal_point = value;
        self
    }

    /// Numbers may have no digit before the point, as in `-.5`. Off by default.
    pub fn allow_empty_integer_part(mut self, value: bool) -> JsonCodecSettingsBuilder
        ensures { result ≡ record self { json = record self.json { numbers = record self.json.numbers { allow_empty_integer_part = value } } } }
    {
        self.json.numbers.allow_empty_integer_part = value;
        self
    }

    /// A number stands for an instant under epoch seconds alone, and a string under the other forms alone. Off by default.
    pub fn strict_timestamp_formats(mut self, value: bool) -> JsonCodecSettingsBuilder
        ensures { result ≡ record self { json = record self.json { strict_timestamp_formats = value } } }
    {
        self.json.strict_timestamp_formats = value;
        self
    }

    /// Nulls of structures and unions go to the consumer. Off by default: then they are passed over.
    pub fn dispatch_null_members(mut self, value: bool) -> JsonCodecSettingsBuilder
        ensures { result ≡ record self { json = record self.json { dispatch_null_members = value } } }
    {
        self.json.dispatch_null_members = value;
        self
    }

    /// Big numbers are written as strings. Off by default.
    pub fn use_string_for_arbitrary_precision(mut self, value: bool) -> JsonCodecSettingsBuilder
        ensures { result ≡ record self { json = record self.json { use_string_for_arbitrary_precision = value } } }
    {
        self.json.use_string_for_arbitrary_precision = value;
        self
    }

    /// The text of a big number that is no JSON number is rewritten as one. Off by default: then it is refused.
    pub fn normalize_arbitrary_precision(mut self, value: bool) -> JsonCodecSettingsBuilder
        ensures { result ≡ record self { json = record self.json { normalize_arbitrary_precision = value } } }
    {
        self.json.normalize_arbitrary_precision = value;
        self
    }

    /// The form of instants at a place without one. Epoch seconds by default.
    pub fn default_timestamp_format(mut self, value: Format) -> JsonCodecSettingsBuilder
        ensures { result ≡ record self { json = record self.json { default_timestamp_format = value } } }
    {
        let mut json = self.json;
        json.default_timestamp_format = value;
        self.json = json;
        self
    }

    /// How many containers may be open at once, with the parts of documents and what is skipped: at most 512, and 128 by default.
    pub fn max_depth(mut self, value: u32) -> JsonCodecSettingsBuilder
        requires { value ≤ 512 }
        ensures { result ≡ record self { json = record self.json { max_depth = value } } }
    {
        self.json.max_depth = value as usize;
        self
    }

    /// The identifier of the protocol, which documents carry. `aws.smithy.json#JsonCodec` by default.
    pub fn protocol_id(mut self, value: ShapeId) -> JsonCodecSettingsBuilder
        ensures { result ≡ record self { protocol_id = value } }
    {
        self.protocol_id = value;
        self
    }

    /// The namespace of a relative name under `__type`. None by default.
    pub fn default_namespace(mut self, value: String) -> JsonCodecSettingsBuilder
        ensures { result ≡ record self { default_namespace = Some (string_bytes value) } }
    {
        self.default_namespace = Some(value);
        self
    }

    /// The settings.
    pub fn build(self) -> JsonCodecSettings
        ensures { result ≡ self }
    {
        JsonCodecSettings {
            json: self.json,
            protocol_id: self.protocol_id,
            default_namespace: self.default_namespace,
        }
    }
}
