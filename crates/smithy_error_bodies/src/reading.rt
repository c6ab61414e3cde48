//! An object of an error body, token by token.
ghost use Rattle.std.specs.Prelude.{◌≡◌, IfOk, IfErr, option_map, string_bytes};
ghost use Rattle.smithy_json_grammar.specs.EscapedText.{escaped_text};
ghost use Rattle.smithy_json_grammar.specs.Unescape.{unescaped};
ghost use Rattle.smithy_json_tokens.specs.TokenView.{token_view};
ghost use Rattle.smithy_error_bodies.specs.Private.JsonKeys.{key_of};
ghost use Rattle.smithy_error_bodies.specs.declared.error_body.ErrorBodyFault.TheVariants.{NoMemory};

use crate::error_body::{ErrorBody, ErrorBodyFault};
use crate::keys::{is_code, is_message, is_type};
use smithy_json_grammar::{EscapeError, EscapedStr};
use smithy_json_tokens::Token;
use std::alloc::Global;

// How many containers a value of the object may have one in the other.
const MAX_NESTING: usize = 512;

// What the last key of the object itself is.
#[derive(Clone, Copy)]
pub(crate) enum Key {
    Code,
    Kind,
    Message,
    Other,
}

// What a token is for the object.
#[derive(Clone, Copy)]
pub(crate) enum Turn {
    // The object goes on.
    On,
    // It ends.
    Done,
    // Nothing can be read.
    Wrong,
}

// What was read of an object so far.
#[derive(Drop)]
pub(crate) struct Reading {
    // How many containers are open inside of it.
    within: usize,
    under: Key,
    code: Option<String>,
    type_name: Option<String>,
    message: Option<String>,
}

fn key_of(key: &str) -> Key
    ensures { result ≡ key_of key.now }
{
    if is_code(key) {
        return Key::Code;
    }
    if is_type(key) {
        return Key::Kind;
    }
    if is_message(key) {
        return Key::Message;
    }
    Key::Other
}

// The text of a string, or none where an escape stands for nothing.
fn text_of<'a>(alloc: Global, value: EscapedStr<'a>) -> Result<Option<String>, ErrorBodyFault>
    ensures ok { IfOk result (λ text. option_map string_bytes text ≡ unescaped (escaped_text value.entry)) }
    ensures err { IfErr result (λ e. e ≡ NoMemory) }
{
    match value.to_unescaped(alloc) {
        Ok(text) => Ok(Some(text.into_owned(alloc)?)),
        Err(EscapeError::NoMemory) => Err(ErrorBodyFault::NoMemory),
        Err(_) => Ok(None),
    }
}

impl Reading {
    ghost use Rattle.std.specs.Prelude.{◌≡◌, IfOk, IfErr, string_bytes};
    ghost use Rattle.smithy_json_grammar.specs.EscapedText.{escaped_text};
    ghost use Rattle.smithy_error_bodies.specs.Said.{said_by};
    ghost use Rattle.smithy_error_bodies.specs.Private.JsonSteps.{state_of, fresh, with_text, start_step, end_step, key_step, string_step, step, said_in};

    // Behind the brace that begins the object.
    pub(crate) fn new() -> Reading
        ensures { state_of result ≡ fresh }
    {
        Reading {
            within: 0,
            under: Key::Other,
            code: None,
            type_name: None,
            message: None,
        }
    }

    // What the object says, where it ends.
    pub(crate) fn into_body(self) -> ErrorBody
        ensures { said_by result ≡ said_in (state_of self) }
    {
        ErrorBody {
            code: self.code.or(self.type_name),
            message: self.message,
        }
    }

    fn start(&mut self) -> Turn
        ensures { start_step (state_of self.old) ≡ (result, state_of self.new) }
    {
        if self.within < MAX_NESTING {
            self.within += 1;
            return Turn::On;
        }
        Turn::Wrong
    }

    fn end(&mut self) -> Turn
        ensures { end_step (state_of self.old) ≡ (result, state_of self.new) }
    {
        if self.within == 0 {
            return Turn::Done;
        }
        self.within -= 1;
        Turn::On
    }

    fn key<'a>(&mut self, key: EscapedStr<'a>) -> Turn
        ensures { key_step (state_of self.old) (escaped_text key.entry) ≡ (result, state_of self.new) }
    {
        if self.within == 0 {
            self.under = key_of(key.as_escaped_str());
        }
        Turn::On
    }

    // Keeps a text under the last key.
    fn put(&mut self, text: String)
        ensures { state_of self.new ≡ with_text (state_of self.old).under (string_bytes text) (state_of self.old) }
    {
        match self.under {
            Key::Code => self.code = Some(text),
            Key::Kind => self.type_name = Some(text),
            Key::Message => self.message = Some(text),
            Key::Other => {}
        }
    }

    fn string<'a>(&mut self, alloc: Global, value: EscapedStr<'a>) -> Result<Turn, ErrorBodyFault>
        ensures ok { IfOk result (λ turn. string_step (state_of self.old) (escaped_text value.entry) ≡ (turn, state_of self.new)) }
        ensures err { IfErr result (λ e. e ≡ NoMemory) }
    {
        if self.within > 0 {
            return Ok(Turn::On);
        }
        if matches!(self.under, Key::Other) {
            return Ok(Turn::On);
        }
        match text_of(alloc, value)? {
            Some(text) => {
                self.put(text);
                Ok(Turn::On)
            }
            None => Ok(Turn::Wrong),
        }
    }

    // Goes on by one token.
    pub(crate) fn take<'a>(
        &mut self,
        alloc: Global,
        token: Token<'a>,
    ) -> Result<Turn, ErrorBodyFault>
        ensures ok { IfOk result (λ turn. step (state_of self.old) (token_view token.entry) ≡ (turn, state_of self.new)) }
        ensures err { IfErr result (λ e. e ≡ NoMemory) }
    {
        match token {
            Token::StartArray { offset: _ } => Ok(self.start()),
            Token::StartObject { offset: _ } => Ok(self.start()),
            Token::EndArray { offset: _ } => Ok(self.end()),
            Token::EndObject { offset: _ } => Ok(self.end()),
            Token::ObjectKey { offset: _, key } => Ok(self.key(key)),
            Token::ValueString { offset: _, value } => self.string(alloc, value),
            Token::ValueNull { offset: _ } => Ok(Turn::On),
            Token::ValueBool {
                offset: _,
                value: _,
            } => Ok(Turn::On),
            Token::ValueNumber {
                offset: _,
                value: _,
            } => Ok(Turn::On),
            Token::ValueUncarried { offset: _, text: _ } => Ok(Turn::On),
        }
    }
}
