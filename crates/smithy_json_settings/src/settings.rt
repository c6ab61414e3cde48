//! The settings by which bodies are read and written.
ghost use Rattle.std.specs.Prelude.{◌≤◌};

use smithy_json_grammar::number_grammar::NumberGrammar;
use smithy_types::Format;

/// All that decides how bodies are read and written. A codec, its readers and its serializers hold it whole.
#[derive(Clone, Copy, Debug)]
pub struct Settings {
    /// Members go by their JSON names, where they have one.
    pub use_json_name: bool,
    /// How many containers may be open at once.
    pub max_depth: usize,
    /// The form of instants at a place without one.
    pub default_timestamp_format: Format,
    /// Whether numbers are of the grammar, values end at a boundary, and strings that are read hold no bytes below 0x20.
    pub enforce_strictness: bool,
    /// Whether an integer may have a fraction or an exponent.
    pub allow_integral_float_numbers: bool,
    /// What numbers may have beyond RFC 8259.
    pub numbers: NumberGrammar,
    /// Whether skipped strings have valid escapes alone.
    pub validate_skipped_values: bool,
    /// Whether skipped strings are in UTF-8, without bytes below 0x20.
    pub validate_skipped_string_encoding: bool,
    /// Whether a number stands for an instant under epoch seconds alone, and a string under the other forms alone.
    pub strict_timestamp_formats: bool,
    /// Whether nulls of structures and unions are handed on.
    pub dispatch_null_members: bool,
    /// Whether big numbers are written as strings.
    pub use_string_for_arbitrary_precision: bool,
    /// Whether the text of a big number that is no JSON number is rewritten as one.
    pub normalize_arbitrary_precision: bool,
    ghost greatest: { max_depth ≤ 512 },
}

impl Default for Settings {
    ghost use Rattle.std.specs.Prelude.{◌≡◌};
    ghost use Rattle.smithy_json_settings.specs.Settings.{held_settings, default_settings};

    ghost is_default = { λ s. held_settings s ≡ default_settings };

    /// Those of a client where none is set.
    fn default() -> Settings {
        Settings {
            use_json_name: true,
            max_depth: 128,
            default_timestamp_format: Format::EpochSeconds,
            enforce_strictness: false,
            allow_integral_float_numbers: false,
            numbers: NumberGrammar::default(),
            validate_skipped_values: true,
            validate_skipped_string_encoding: false,
            strict_timestamp_formats: false,
            dispatch_null_members: false,
            use_string_for_arbitrary_precision: false,
            normalize_arbitrary_precision: false,
        }
    }
}

impl Settings {
    ghost use Rattle.std.specs.Prelude.{◌≡◌};
    ghost use Rattle.smithy_json_settings.specs.Settings.{held_settings, strict_settings};

    /// Those under which RFC 8259 is read to the letter.
    pub fn strict(use_json_name: bool) -> Settings
        ensures { held_settings result ≡ strict_settings use_json_name }
    {
        let mut settings = Settings::default();
        settings.use_json_name = use_json_name;
        settings.enforce_strictness = true;
        settings.validate_skipped_string_encoding = true;
        settings.strict_timestamp_formats = true;
        settings
    }
}
