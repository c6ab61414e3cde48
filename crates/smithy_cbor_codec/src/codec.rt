//! The maker of readers and serializers.
use crate::deserializer::CborDeserializer;
use crate::serializer::CborSerializer;
use smithy_cbor_body::{CborCodecSettings, NoPrefix};
use std::alloc::Global;

/// The settings under which bodies in CBOR are read and written. It makes readers and serializers.
#[derive(Debug, Drop)]
pub struct CborCodec {
    pub(crate) settings: CborCodecSettings,
}

impl CborCodec {
    ghost use Rattle.std.specs.Prelude.{◌≡◌, false};
    ghost use Rattle.smithy_cbor_body.specs.Codec.{held_settings, strict_settings};
    ghost use Rattle.smithy_cbor_codec.specs.Serializing.{settings_of};
    ghost use Rattle.smithy_cbor_codec.specs.Cursor.{cursor_of, reading_settings_of};
    ghost use Rattle.smithy_cbor_codec.specs.Serializing.{state_of, has_failed};
    ghost use Rattle.smithy_cbor_body.specs.Prefixes.{fresh_state};
    ghost use Rattle.smithy_wire.specs.Walking.{fresh_cursor};

    /// A codec of these settings.
    pub fn new(settings: CborCodecSettings) -> CborCodec
        ensures { settings_of result ≡ held_settings settings }
    {
        CborCodec { settings }
    }

    /// A codec that reads one item and nothing behind it, to a depth of 128 containers.
    pub fn strict() -> CborCodec
        ensures { settings_of result ≡ strict_settings }
    {
        CborCodec::new(CborCodecSettings::strict())
    }

    /// A serializer that has written nothing yet. It takes no memory.
    pub fn create_serializer(&self, alloc: Global) -> CborSerializer<NoPrefix>
        ensures state { state_of result ≡ fresh_state (settings_of self.now) }
        ensures sound { has_failed result ≡ false }
    {
        CborSerializer::new(self.settings, alloc)
    }

    /// A reader of one input, of which nothing is read yet. It takes no memory.
    pub fn create_deserializer<'a>(&self, alloc: Global, input: &'a [u8]) -> CborDeserializer<'a>
        ensures settings { reading_settings_of result ≡ settings_of self.now }
        ensures fresh { cursor_of result ≡ fresh_cursor input.now }
    {
        CborDeserializer::new(input, alloc, self.settings)
    }
}

impl Default for CborCodec {
    ghost use Rattle.std.specs.Prelude.{◌≡◌};
    ghost use Rattle.smithy_cbor_body.specs.Codec.{default_settings};
    ghost use Rattle.smithy_cbor_codec.specs.Serializing.{settings_of};

    /// A codec under the default settings, which reads what strict settings refuse.
    fn default() -> CborCodec
        ensures { settings_of result ≡ default_settings }
    {
        CborCodec::new(CborCodecSettings::default())
    }
}
