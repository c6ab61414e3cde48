//! The settings under which bodies are read and written.
/// The greatest depth of containers, unless another is set.
const DEFAULT_MAX_DEPTH: u32 = 128;

/// All that a codec is asked for, which each reader and serializer of it holds too.
#[derive(Clone, Copy, Debug)]
pub struct CborCodecSettings {
    /// How many containers may be open at once.
    pub max_depth: u32,
    /// Nothing follows an item, and only an empty input is a structure.
    pub enforce_strictness: bool,
    /// The null of a member is handed on, and not dropped.
    pub dispatch_null_members: bool,
    /// Lists and maps whose length is told are written with it.
    pub use_definite_lengths: bool,
}

impl CborCodecSettings {
    ghost use Rattle.std.specs.Prelude.{◌≡◌, not};
    ghost use Rattle.smithy_cbor_body.specs.Codec.{held_settings, strict_settings};
    ghost use Rattle.smithy_cbor_body.specs.Lengths.{written_length};

    /// Those of a codec that reads one item and nothing behind it, to a depth of 128 containers, and writes containers of
    /// indefinite length.
    pub fn strict() -> CborCodecSettings
        ensures { held_settings result ≡ strict_settings }
    {
        CborCodecSettings {
            max_depth: DEFAULT_MAX_DEPTH,
            enforce_strictness: true,
            dispatch_null_members: false,
            use_definite_lengths: false,
        }
    }

    /// How many containers may be open at once.
    pub fn max_depth(&self) -> u32
        ensures { result ≡ (held_settings self.now).max_depth }
    {
        self.max_depth
    }

    /// The same settings, under which so many containers may be open at once. Under 0 no container is read.
    pub fn with_max_depth(self, value: u32) -> CborCodecSettings
        ensures { held_settings result ≡ record (held_settings self) { max_depth = value } }
    {
        CborCodecSettings {
            max_depth: value,
            enforce_strictness: self.enforce_strictness,
            dispatch_null_members: self.dispatch_null_members,
            use_definite_lengths: self.use_definite_lengths,
        }
    }

    /// The same settings, under which input is read strictly, or isn't.
    ///
    /// Strictly, a null under the name of a member is dropped, nothing follows the item, and only an empty input is a
    /// structure. Otherwise such a null is handed on, bytes may follow the item, and a structure that is due where the input
    /// ends is one without members. A null under a key that names no member is dropped in any case.
    pub fn enforce_strictness(self, value: bool) -> CborCodecSettings
        ensures { held_settings result ≡ record (held_settings self) { enforce_strictness = value; dispatch_null_members = not value } }
    {
        CborCodecSettings {
            max_depth: self.max_depth,
            enforce_strictness: value,
            dispatch_null_members: !value,
            use_definite_lengths: self.use_definite_lengths,
        }
    }

    // The length that a list or a map is written with, of the one that is told.
    pub(crate) fn written_length(&self, length: Option<usize>) -> Option<usize>
        ensures { result ≡ written_length (held_settings self.now) length }
    {
        if self.use_definite_lengths {
            length
        } else {
            None
        }
    }

    /// The same settings, under which lists and maps whose length is told are written with it, or aren't. Such a list or
    /// map has to have so many elements or entries: its end is `Unwritable` where it has more or fewer.
    pub fn use_definite_lengths(self, value: bool) -> CborCodecSettings
        ensures { held_settings result ≡ record (held_settings self) { use_definite_lengths = value } }
    {
        CborCodecSettings {
            max_depth: self.max_depth,
            enforce_strictness: self.enforce_strictness,
            dispatch_null_members: self.dispatch_null_members,
            use_definite_lengths: value,
        }
    }
}

impl Default for CborCodecSettings {
    ghost use Rattle.std.specs.Prelude.{◌≡◌};
    ghost use Rattle.smithy_cbor_body.specs.Codec.{held_settings, default_settings};

    /// Those of a codec that reads what strict settings refuse, to a depth of 128 containers, and writes containers of
    /// indefinite length.
    fn default() -> CborCodecSettings
        ensures { held_settings result ≡ default_settings }
    {
        CborCodecSettings::strict().enforce_strictness(false)
    }
}
