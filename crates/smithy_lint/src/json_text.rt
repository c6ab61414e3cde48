//! Whether a body is a JSON text that is gone through.
ghost use Rattle.std.specs.Prelude.{◌≡◌, IfOk, IfErr};
ghost use Rattle.smithy_json_codec.specs.WireSettings.{wire_settings};
ghost use Rattle.smithy_json_values.specs.Codec.{held_settings};
ghost use Rattle.smithy_transcode.specs.Wires.{json};
ghost use Rattle.smithy_lint.specs.Private.Opening.{HoldsText, IsRefusedFor};

use crate::json_body::JsonBody;
use crate::linting::LintError;
use smithy_json_grammar::scan::skip_blanks;
use smithy_json_settings::Settings;
use smithy_json_values::input::Input;
use smithy_json_values::skip::{SkipFault, skipped_end};

// How many containers may nest in a body.
const MAX_NESTING: usize = 512;

// The settings of a wire.
fn wire_settings(use_json_name: bool, integral: bool) -> Settings
    ensures { held_settings result ≡ wire_settings use_json_name integral }
{
    let mut settings = Settings::strict(use_json_name);
    settings.allow_integral_float_numbers = integral;
    settings
}

// The same settings, where more containers may be open.
fn nested(settings: Settings) -> Settings
    ensures { held_settings result ≡ record (held_settings settings) { max_depth = 512 } }
{
    let mut deeper = settings;
    deeper.max_depth = MAX_NESTING;
    deeper
}

// The body, if it is a text in which at most 512 containers nest.
pub(crate) fn json_body(
    bytes: &[u8],
    use_json_name: bool,
    integral: bool,
) -> Result<JsonBody<'_>, LintError>
    ensures ok { IfOk result (λ b. HoldsText use_json_name integral bytes.now b) }
    ensures refused { IfErr result (IsRefusedFor (json use_json_name integral) bytes.now) }
{
    let settings = wire_settings(use_json_name, integral);
    let nested = nested(settings);
    let input = Input {
        bytes,
        settings: nested,
    };
    match skipped_end(input, 0, 0) {
        Ok(end) => {
            if skip_blanks(bytes, end) < bytes.len() {
                return Err(LintError::NotWellFormed);
            }
            Ok(JsonBody {
                bytes,
                settings,
                nested,
            })
        }
        Err(SkipFault::NoValue) => Err(LintError::NotWellFormed),
        Err(SkipFault::TooDeep) => Err(LintError::TooNested),
    }
}
