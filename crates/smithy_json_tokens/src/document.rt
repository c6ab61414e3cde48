//! Taking a document.

ghost use Rattle.std.specs.Prelude.{List};
ghost use Rattle.std.specs.Iterator.{IsFinite};
ghost use Rattle.smithy_json_tokens.specs.DocumentSteps.{MakesDocument, MakesMeaning};

use crate::error::DeserializeError;
use crate::expect::expected;
use crate::frames::take;
use crate::is_token::IsToken;
use smithy_types::Document;
use std::alloc::Global;

fn make_document<T: IsToken, I: Iterator<Item = Result<T, DeserializeError>>>(
    alloc: Global,
    tokens: &mut I,
) -> Result<Document, DeserializeError>
    requires can { I.can_next tokens.old }
    requires ends { IsFinite (I.remaining tokens.old) }
    ensures { (taken : List T) × MakesDocument T.view T.place I.next_gives taken tokens.old result tokens.new }
{
    let mut frames = Vec::new(alloc);
    while let Some(item) = tokens.next() {
        let token = item?;
        if let Some(document) = take(alloc, &mut frames, token.as_token())? {
            return Ok(document);
        }
    }
    Err(expected("expected a document", None))
}

/// A document: one value, with at most 256 values inside one another, scalars too.
///
/// Names and strings are unescaped, and of equal names the last counts. `Custom` comes at a number that
/// `Number` doesn't hold, at the 257th value inside one another, at a token that may not come, and where the
/// tokens end too early; `UnescapeFailed` at a bad escape. The caller's condition is that the iterator ends.
pub fn expect_document<T: IsToken, I: Iterator<Item = Result<T, DeserializeError>>>(
    alloc: Global,
    tokens: &mut I,
) -> Result<Document, DeserializeError>
    requires can { I.can_next tokens.old }
    requires ends { IsFinite (I.remaining tokens.old) }
    ensures made { (taken : List T) × MakesDocument T.view T.place I.next_gives taken tokens.old result tokens.new }
    // The tokens of a value that means a document make this document.
    ensures meaning { MakesMeaning T.view T.place I.next_gives tokens.old result }
{
    make_document(alloc, tokens)
}
