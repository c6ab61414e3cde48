//! The tokens of an input, one at a time.

ghost use Rattle.std.specs.Prelude.{◌≡◌, ◌≢◌, ◌⊎◌, ◌≤◌, ◌<◌, ◌+◌, ◌-◌, ℕ, List, length, drop, reverse, OnOk, IfErr, IfOk, Some, [], ◌∷◌, vec_items};
ghost use Rattle.smithy_json_tokens.specs.TokenRules.{Cursor, BeginsContainer, FindsContainer, behind, leave, found, refused, turn_answer, state_turn, finished, next_answer};
ghost use Rattle.smithy_json_tokens.specs.TokenRuns.{start};
ghost use Rattle.smithy_json_tokens.specs.TokenView.{token_view, token_offset, left_from, IsPlace};
ghost use Rattle.smithy_json_tokens.specs.declared.error.DeserializeErrorKind.TheVariants.{NoMemory};
ghost use Rattle.smithy_json_tokens.specs.declared.token_turn.State.TheVariants.{Initial};

use crate::error::{DeserializeError, DeserializeErrorKind};
use crate::token::Token;
use crate::token_turn::{State, Turn, past_blanks, state_turn};
use std::alloc::Global;

/// An iterator over the tokens of an input.
#[derive(Drop)]
pub struct JsonTokenIterator<'a> {
    input: &'a [u8],
    index: usize,
    state: State,
    outer: Vec<State>,
    ghost within: { index ≤ length input.now },
}

// Into a container, behind which this state comes.
#[inline(always)]
fn enter(outer: &mut Vec<State>, after: State) -> Result<(), DeserializeError>
    ensures ok { OnOk result (reverse (vec_items outer.new) ≡ after ∷ reverse (vec_items outer.old)) }
    ensures err { IfErr result (λ e. e.kind ≡ NoMemory) }
{
    match outer.push(after) {
        Ok(()) => Ok(()),
        Err(_) => Err(DeserializeError {
            kind: DeserializeErrorKind::NoMemory,
            offset: None,
        }),
    }
}

// Back into the container around.
#[inline(always)]
fn leave(outer: &mut Vec<State>) -> State
    ensures { (left : List ℕ) → leave (reverse (vec_items outer.old)) left ≡ record { state = result; outer = reverse (vec_items outer.new); left = left } }
{
    match outer.pop() {
        Some(state) => state,
        None => State::Initial,
    }
}

// The state behind a token, where `after` is the one behind the value or the key that it is of.
#[inline(always)]
fn state_behind<'a>(
    outer: &mut Vec<State>,
    token: Token<'a>,
    after: State,
) -> Result<State, DeserializeError>
    ensures ok { IfOk result (λ state. (left : List ℕ) → behind (token_view token.entry) after (reverse (vec_items outer.old)) left ≡ record { state = state; outer = reverse (vec_items outer.new); left = left }) }
    ensures err { IfErr result (λ e. (e.kind ≡ NoMemory) × BeginsContainer (token_view token.entry)) }
{
    match token {
        Token::StartArray { offset: _ } => {
            enter(outer, after)?;
            Ok(State::ArrayFirstValueOrEnd)
        }
        Token::StartObject { offset: _ } => {
            enter(outer, after)?;
            Ok(State::ObjectFirstKeyOrEnd)
        }
        Token::EndArray { offset: _ } => Ok(leave(outer)),
        Token::EndObject { offset: _ } => Ok(leave(outer)),
        Token::ValueNull { offset: _ } => Ok(after),
        Token::ObjectKey { offset: _, key: _ } => Ok(after),
        Token::ValueBool {
            offset: _,
            value: _,
        } => Ok(after),
        Token::ValueNumber {
            offset: _,
            value: _,
        } => Ok(after),
        Token::ValueString {
            offset: _,
            value: _,
        } => Ok(after),
        Token::ValueUncarried { offset: _, text: _ } => Ok(after),
    }
}

impl<'a> JsonTokenIterator<'a> {
    ghost use Rattle.smithy_json_tokens.specs.IteratorView.{input_of, outer_of, cursor_of};

    pub(crate) fn new(alloc: Global, input: &'a [u8]) -> JsonTokenIterator<'a>
        ensures input { input_of result ≡ input.now }
        ensures cursor { cursor_of result ≡ start input.now }
    {
        JsonTokenIterator {
            input,
            index: 0,
            state: State::Initial,
            outer: Vec::new(alloc),
        }
    }

    // Behind the token of a turn.
    #[inline(always)]
    fn advance(&mut self, turn: Turn<'a>) -> Result<Token<'a>, DeserializeError>
        requires end { turn.scanned.end ≤ length (input_of self.old) }
        ensures input { input_of self.new ≡ input_of self.old }
        ensures token { IfOk result (λ t. t ≡ turn.entry.scanned.token) }
        ensures ok { OnOk result (cursor_of self.new ≡ behind (token_view turn.entry.scanned.token) turn.entry.after (outer_of self.old) (drop turn.entry.scanned.end (input_of self.old))) }
        ensures index { OnOk result (self.new.index ≡ turn.entry.scanned.end) }
        ensures err { IfErr result (λ e. (e.kind ≡ NoMemory) × BeginsContainer (token_view turn.entry.scanned.token)) }
    {
        self.state = state_behind(&mut self.outer, turn.scanned.token, turn.after)?;
        self.index = turn.scanned.end;
        Ok(turn.scanned.token)
    }

    // The item that comes at the offset, behind blanks.
    #[inline(always)]
    fn item_at(&mut self, at: usize) -> Result<Token<'a>, DeserializeError>
        requires within { at ≤ length (input_of self.old) }
        requires due { self.old.state ≡ Initial → at ≢ length (input_of self.old) }
        ensures input { input_of self.new ≡ input_of self.old }
        ensures index { OnOk result (at < self.new.index) }
        ensures token { IfOk result (λ token. (turn_answer (outer_of self.old) (state_turn self.old.state (drop at (input_of self.old)))
            ≡ found (token_view token) (drop (token_offset token) (input_of self.old)) (cursor_of self.new)) × (token_offset token ≤ length (input_of self.old))) }
        ensures error { IfErr result (λ e. ((turn_answer (outer_of self.old) (state_turn self.old.state (drop at (input_of self.old)))
            ≡ refused e.kind (left_from (input_of self.old) e.offset)) × IsPlace (input_of self.old) e.offset)
            ⊎ ((e.kind ≡ NoMemory) × FindsContainer (turn_answer (outer_of self.old) (state_turn self.old.state (drop at (input_of self.old)))))) }
    {
        let turn = state_turn(self.input, at, self.state)?;
        self.advance(turn)
    }
}

impl<'a> Iterator for JsonTokenIterator<'a> {
    ghost use Rattle.smithy_json_tokens.specs.IteratorView.{GivesNext, bytes_left};

    type Item = Result<Token<'a>, DeserializeError>;

    ghost next_gives = { GivesNext };

    ghost remaining = { bytes_left };

    fn next(&mut self) -> Option<Result<Token<'a>, DeserializeError>> {
        if self.index >= self.input.len() {
            return None;
        }
        let at = past_blanks(self.input, self.index);
        if at >= self.input.len() && self.state == State::Initial {
            self.index = at;
            return None;
        }
        let item = self.item_at(at);
        if item.is_err() {
            self.index = self.input.len();
        }
        Some(item)
    }
}
