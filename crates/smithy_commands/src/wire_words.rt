//! The wires that words of a command name.
ghost use Rattle.std.specs.Prelude.{◌≡◌, map, option_map, string_bytes, IfOk};
ghost use Rattle.smithy_transcode.specs.Wires.{json, wire_of};
ghost use Rattle.smithy_commands.specs.WireWords.{wanted_wire, wire_named, read_wire_named, written_wire_named, named_wire};

use smithy_transcode::Wire;
use std::alloc::{AllocError, Global};

/// A wire, as words name it.
#[derive(Clone, Copy)]
pub enum WireWords<'a> {
    /// JSON.
    Json,
    /// JSON, with the JSON names of members.
    JsonName,
    /// JSON, of which an integer that is read may have a fraction or an exponent.
    JsonIntegral,
    /// The same with the JSON names of members.
    JsonNameIntegral,
    /// CBOR.
    Cbor,
    /// CBOR whose lists and maps have their lengths.
    CborDefinite,
    /// AWS Query, with the action and the version.
    Query(&'a str, &'a str),
}

// json, json-name or cbor.
fn single_wire<'a>(word: &str) -> Option<WireWords<'a>>
    ensures { option_map named_wire result ≡ wire_named word.now }
{
    match word {
        "json" => Some(WireWords::Json),
        "json-name" => Some(WireWords::JsonName),
        "cbor" => Some(WireWords::Cbor),
        _ => None,
    }
}

/// The wire of a word that names one to read: one of these, json-integral or json-name-integral.
pub(crate) fn read_wire<'a>(word: &str) -> Option<WireWords<'a>>
    ensures { option_map named_wire result ≡ read_wire_named word.now }
{
    match word {
        "json-integral" => Some(WireWords::JsonIntegral),
        "json-name-integral" => Some(WireWords::JsonNameIntegral),
        _ => single_wire(word),
    }
}

// json, json-name, cbor or cbor-definite.
fn written_wire<'a>(word: &str) -> Option<WireWords<'a>>
    ensures { option_map named_wire result ≡ written_wire_named word.now }
{
    match word {
        "cbor-definite" => Some(WireWords::CborDefinite),
        _ => single_wire(word),
    }
}

/// The wire of the output, by its words: json, json-name, cbor, cbor-definite, or `query ACTION VERSION`.
pub(crate) fn output_wire(words: &[String]) -> Option<WireWords<'_>>
    ensures { option_map named_wire result ≡ wanted_wire (map string_bytes words.now) }
{
    match words {
        [wire] => written_wire(wire.as_str()),
        [wire, action, version] if wire.as_str() == "query" => {
            Some(WireWords::Query(action.as_str(), version.as_str()))
        }
        _ => None,
    }
}

// An owned copy of a word.
fn copied(alloc: Global, word: &str) -> Result<String, AllocError>
    ensures { IfOk result (λ text. string_bytes text ≡ word.now) }
{
    let mut text = String::new(alloc);
    text.push_str(word)?;
    Ok(text)
}

// JSON with these choices.
fn json(use_json_name: bool, integral: bool) -> Wire
    ensures { wire_of result ≡ json use_json_name integral }
{
    Wire::Json {
        use_json_name,
        integral,
    }
}

/// The wire that the words name.
pub(crate) fn wire_of_words(alloc: Global, words: WireWords<'_>) -> Result<Wire, AllocError>
    ensures { IfOk result (λ wire. wire_of wire ≡ named_wire words.entry) }
{
    match words {
        WireWords::Json => Ok(json(false, false)),
        WireWords::JsonName => Ok(json(true, false)),
        WireWords::JsonIntegral => Ok(json(false, true)),
        WireWords::JsonNameIntegral => Ok(json(true, true)),
        WireWords::Cbor => Ok(Wire::Cbor { definite: false }),
        WireWords::CborDefinite => Ok(Wire::Cbor { definite: true }),
        WireWords::Query(action, version) => Ok(Wire::Query {
            action: copied(alloc, action)?,
            version: copied(alloc, version)?,
        }),
    }
}
