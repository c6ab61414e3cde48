//! The maker of readers and serializers.
use crate::deserializer::JsonDeserializer;
use crate::serializer::JsonSerializer;
use smithy_json_settings::JsonCodecSettings;
use smithy_wire::Walk;
use std::alloc::Global;
use std::marker::Model;

/// The settings under which bodies in JSON are read and written. It makes readers and serializers. Contracts see its settings.
#[derive(Debug, Drop)]
pub struct JsonCodec {
    settings: JsonCodecSettings,
}

impl Model for JsonCodec {
    ghost use Rattle.smithy_json_settings.specs.Settings.{CodecSettings};

    ghost Value = { CodecSettings };

    ghost view = { λ codec. codec.settings };
}

impl Default for JsonCodec {
    ghost use Rattle.std.specs.Prelude.{◌≡◌};
    ghost use Rattle.smithy_json_settings.specs.Settings.{default_codec_settings};

    ghost is_default = { λ codec. codec ≡ default_codec_settings };

    /// The codec of a client where nothing is set.
    fn default() -> JsonCodec {
        JsonCodec::new(JsonCodecSettings::default())
    }
}

impl JsonCodec {
    ghost use Rattle.std.specs.Prelude.{◌≡◌, false, option_map};
    ghost use Rattle.smithy_json_values.specs.Codec.{strict_codec_settings, with_namespace};
    ghost use Rattle.smithy_json_codec.specs.WireSettings.{wire_settings};
    ghost use Rattle.smithy_json_codec.specs.Cursor.{cursor_of, reader_settings_of};
    ghost use Rattle.smithy_wire.specs.Walking.{fresh_cursor};
    ghost use Rattle.smithy_json_codec.specs.Serializing.{state_of, has_failed};
    ghost use Rattle.smithy_json_codec.specs.Writing.{fresh_state};

    /// A codec under these settings.
    pub fn new(settings: JsonCodecSettings) -> JsonCodec
        ensures { result ≡ settings }
    {
        JsonCodec { settings }
    }

    /// A codec that reads RFC 8259 to the letter, to a depth of 128 containers. Members go by their JSON
    /// names where `use_json_name` is set and a name is given, and instants without a form are epoch
    /// seconds.
    pub fn strict(use_json_name: bool) -> JsonCodec
        ensures { result ≡ strict_codec_settings use_json_name }
    {
        JsonCodec::strict_with_integral_numbers(use_json_name, false)
    }

    /// The same, where an integer may also have a fraction or an exponent if `integral` is set, as `1.0`: it is read where the
    /// number is whole, and it and the exponent fit 64 bits. What is written is the same in both cases.
    pub fn strict_with_integral_numbers(use_json_name: bool, integral: bool) -> JsonCodec
        ensures { result ≡ record (strict_codec_settings use_json_name) { json = wire_settings use_json_name integral } }
    {
        let settings = JsonCodecSettings::strict(use_json_name)
            .into_builder()
            .allow_integral_float_numbers(integral)
            .build();
        JsonCodec::new(settings)
    }

    /// The settings.
    pub fn settings(&self) -> &JsonCodecSettings
        ensures { result.now ≡ self.now }
    {
        &self.settings
    }

    /// A serializer that has written nothing yet. It takes no memory.
    pub fn create_serializer(&self, alloc: Global) -> JsonSerializer
        ensures state { state_of result ≡ fresh_state self.now.json }
        ensures sound { has_failed result ≡ false }
    {
        JsonSerializer::new(self.settings.chosen(), alloc)
    }

    /// A reader of one input, of which nothing is read yet. It takes no memory. What it reads borrows from the input alone, and so may
    /// outlive the codec.
    pub fn create_deserializer<'c, 'a>(
        &'c self,
        alloc: Global,
        input: &'a [u8],
    ) -> JsonDeserializer<'c, 'a>
        ensures settings { reader_settings_of result ≡ self.now }
        ensures fresh { cursor_of result ≡ fresh_cursor input.now }
    {
        self.create_deserializer_with_namespace(alloc, input, None)
    }

    /// The same, where relative names of shapes in documents stand in this namespace, unless the settings have another.
    pub fn create_deserializer_with_namespace<'c, 'a>(
        &'c self,
        alloc: Global,
        input: &'a [u8],
        namespace: Option<&'c str>,
    ) -> JsonDeserializer<'c, 'a>
        ensures settings { reader_settings_of result ≡ with_namespace (option_map (λ n. n.now) namespace.entry) self.now }
        ensures fresh { cursor_of result ≡ fresh_cursor input.now }
    {
        let settings = self.settings.chosen();
        JsonDeserializer {
            walk: Walk::new(input, alloc, settings.max_depth),
            alloc,
            settings,
            protocol_id: self.settings.protocol_id(),
            namespace: self.settings.default_namespace().or(namespace),
        }
    }
}
