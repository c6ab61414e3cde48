//! Error bodies in CBOR.
ghost use Rattle.std.specs.Prelude.{◌≡◌, ◌≢◌, [], true, false, Some, None, IfOk, IfErr, OnOk, OnErr, option_map, string_bytes};
ghost use Rattle.smithy_cbor.specs.DecoderView.{input_of, position_of, Reads};
ghost use Rattle.smithy_cbor.specs.declared.error.DecodeKind.TheVariants.{WrongType};
ghost use Rattle.smithy_error_bodies.specs.Said.{said_by, nothing_said};
ghost use Rattle.smithy_error_bodies.specs.CborErrors.{CborSays};
ghost use Rattle.smithy_error_bodies.specs.Private.CborSteps.{key_of, with_text, KeyAt, NoKey, ValueAt, NoValue, PairAt, NoPair, Told};
ghost use Rattle.smithy_error_bodies.specs.declared.error_body.ErrorBodyFault.TheVariants.{InvalidInput};
ghost use Rattle.smithy_error_bodies.specs.declared.cbor.Key.TheVariants.{Kind};

use crate::error_body::{ErrorBody, ErrorBodyFault};
use crate::keys::{is_message, is_type};
use smithy_cbor::{DecodeKind, Decoder, DeserializeError};
use std::alloc::Global;

// What a key of the map is.
#[derive(Clone, Copy)]
enum Key {
    Kind,
    Message,
    Other,
}

fn key_of(text: &str) -> Key
    ensures { result ≡ key_of text.now }
{
    if is_type(text) {
        return Key::Kind;
    }
    if is_message(text) {
        return Key::Message;
    }
    Key::Other
}

// Which key comes.
fn read_key<'b>(alloc: Global, decoder: &mut Decoder<'b>) -> Result<Key, ErrorBodyFault>
    ensures ok { IfOk result (λ key. Reads (KeyAt key) decoder.old decoder.new) }
    ensures err { IfErr result (λ e. e ≡ InvalidInput → NoKey (input_of decoder.old) (position_of decoder.old)) }
{
    let text = decoder.str(alloc)?;
    Ok(key_of(&text))
}

// An item of another type stands there than the wanted one.
fn is_other(error: &DeserializeError) -> bool
    ensures yes { result ≡ true → error.now.kind ≡ WrongType }
    ensures no_other { result ≡ false → error.now.kind ≡ WrongType → ⊥ }
{
    matches!(error.kind, DecodeKind::WrongType)
}

// The text that comes, or none where another item does.
fn read_text<'b>(alloc: Global, decoder: &mut Decoder<'b>) -> Result<Option<String>, ErrorBodyFault>
    ensures ok { IfOk result (λ text. Reads (ValueAt Kind (option_map string_bytes text)) decoder.old decoder.new) }
    ensures err { IfErr result (λ e. e ≡ InvalidInput → NoValue Kind (input_of decoder.old) (position_of decoder.old)) }
{
    match decoder.string(alloc) {
        Ok(text) => Ok(Some(text)),
        Err(error) => {
            if is_other(&error) {
                decoder.skip(alloc)?;
                return Ok(None);
            }
            Err(ErrorBodyFault::from(error))
        }
    }
}

// What is kept of the value that comes under a key.
fn read_value<'b>(
    alloc: Global,
    decoder: &mut Decoder<'b>,
    key: Key,
) -> Result<Option<String>, ErrorBodyFault>
    ensures ok { IfOk result (λ text. Reads (ValueAt key (option_map string_bytes text)) decoder.old decoder.new) }
    ensures err { IfErr result (λ e. e ≡ InvalidInput → NoValue key (input_of decoder.old) (position_of decoder.old)) }
{
    match key {
        Key::Kind => read_text(alloc, decoder),
        Key::Message => read_text(alloc, decoder),
        Key::Other => {
            decoder.skip(alloc)?;
            Ok(None)
        }
    }
}

fn keep(body: &mut ErrorBody, key: Key, text: String)
    ensures { said_by body.new ≡ with_text key (Some (string_bytes text)) (said_by body.old) }
{
    match key {
        Key::Kind => body.code = Some(text),
        Key::Message => body.message = Some(text),
        Key::Other => {}
    }
}

// A key and its value.
fn read_pair<'b>(
    alloc: Global,
    decoder: &mut Decoder<'b>,
    body: &mut ErrorBody,
) -> Result<(), ErrorBodyFault>
    ensures ok { OnOk result (Reads (PairAt (said_by body.old) (said_by body.new)) decoder.old decoder.new) }
    ensures err { IfErr result (λ e. e ≡ InvalidInput → NoPair (input_of decoder.old) (position_of decoder.old)) }
{
    let key = read_key(alloc, decoder)?;
    match read_value(alloc, decoder, key)? {
        Some(text) => {
            keep(body, key, text);
            Ok(())
        }
        None => Ok(()),
    }
}

// So many pairs.
fn read_counted<'b>(
    alloc: Global,
    decoder: &mut Decoder<'b>,
    count: u64,
    body: &mut ErrorBody,
) -> Result<(), ErrorBodyFault>
    ensures ok { OnOk result (Told (Some count) (said_by body.old) (input_of decoder.old) (position_of decoder.old) (Some (said_by body.new))) }
    ensures err { IfErr result (λ e. e ≡ InvalidInput → Told (Some count) (said_by body.old) (input_of decoder.old) (position_of decoder.old) None) }
{
    let mut due = count;
    while due > 0 {
        read_pair(alloc, decoder, body)?;
        due -= 1;
    }
    Ok(())
}

// Pairs up to a break.
fn read_until_break<'b>(
    alloc: Global,
    decoder: &mut Decoder<'b>,
    body: &mut ErrorBody,
) -> Result<(), ErrorBodyFault>
    ensures ok { OnOk result (Told None (said_by body.old) (input_of decoder.old) (position_of decoder.old) (Some (said_by body.new))) }
    ensures err { IfErr result (λ e. e ≡ InvalidInput → Told None (said_by body.old) (input_of decoder.old) (position_of decoder.old) None) }
{
    loop {
        match decoder.read_break() {
            Ok(()) => return Ok(()),
            Err(_) => read_pair(alloc, decoder, body)?,
        }
    }
}

// What the map says whose head was taken.
fn read_map<'b>(
    alloc: Global,
    decoder: &mut Decoder<'b>,
    count: Option<u64>,
) -> Result<ErrorBody, ErrorBodyFault>
    ensures ok { IfOk result (λ body. Told count nothing_said (input_of decoder.old) (position_of decoder.old) (Some (said_by body))) }
    ensures err { IfErr result (λ e. e ≡ InvalidInput → Told count nothing_said (input_of decoder.old) (position_of decoder.old) None) }
{
    let mut body = ErrorBody::nothing();
    match count {
        Some(count) => read_counted(alloc, decoder, count, &mut body)?,
        None => read_until_break(alloc, decoder, &mut body)?,
    }
    Ok(body)
}

/// What a body in CBOR says: the code is the last text of its map under `__type`, and the message the last one under `message`,
/// `Message` or `errorMessage`. An empty body says nothing, and what stands behind the map isn't looked at.
///
/// `InvalidInput` comes where the body isn't empty and begins with no map whose keys are texts of UTF-8 chunks, and whose texts under
/// these keys are of UTF-8 chunks.
pub fn read_cbor_error(alloc: Global, body: &[u8]) -> Result<ErrorBody, ErrorBodyFault>
    ensures ok { IfOk result (λ said. CborSays body.now (Some (said_by said))) }
    ensures err { IfErr result (λ e. e ≡ InvalidInput → CborSays body.now None) }
    // An empty body takes no memory.
    ensures memory { OnErr result (body.now ≢ []) }
{
    if body.is_empty() {
        return Ok(ErrorBody::nothing());
    }
    let mut decoder = Decoder::new(body);
    let count = decoder.map()?;
    read_map(alloc, &mut decoder, count)
}
