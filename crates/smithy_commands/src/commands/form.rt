//! The command `form`: the value of a form, in another wire.
ghost use Rattle.std.specs.Prelude.{◌≡◌, map, option_map, string_bytes};
ghost use Rattle.smithy_commands.specs.Form.{form_of, form_view, status_of_form_error, answers_of};

use crate::one_input::{Answer, AnswerInput};
use crate::status::Status;
use crate::wire_words::{WireWords, output_wire, wire_of_words};
use smithy_form::{FormError, read_form};
use smithy_shapes::{ShapeRef, Shapes};
use smithy_transcode::write_body;
use std::alloc::Global;

impl From<FormError> for Status {
    ghost from_gives = { λ error status. status ≡ status_of_form_error error };

    fn from(error: FormError) -> Self {
        match error {
            FormError::BadPair(number) => Status::BadPair(number),
            FormError::NotForm => Status::NotForm,
            FormError::Repeated(number) => Status::Repeated(number),
            FormError::NoValue => Status::NoValue,
            FormError::NoMemory => Status::OutOfMemory,
        }
    }
}

/// `form TABLE ROOT TO`
#[derive(Clone, Copy)]
pub struct Form<'a> {
    /// The path of the table.
    pub table: &'a str,
    /// The name of the shape of which the value is.
    pub root: &'a str,
    /// The wire of the output.
    pub to: WireWords<'a>,
}

impl<'a> Form<'a> {
    /// The command that the words after `form` are, if they are one.
    pub fn from_words(words: &'a [String]) -> Option<Form<'a>>
        ensures { option_map form_view result ≡ form_of (map string_bytes words.now) }
    {
        match words {
            [table, root, to @ ..] => Some(Form {
                table: table.as_str(),
                root: root.as_str(),
                to: output_wire(to)?,
            }),
            _ => None,
        }
    }
}

impl AnswerInput for Form<'_> {
    ghost command = { λ self. answers_of (form_view self) };

    fn table(&self) -> &str {
        self.table
    }

    fn root(&self) -> &str {
        self.root
    }

    fn answer(
        &self,
        alloc: Global,
        table: &Shapes,
        root: ShapeRef,
        input: &[u8],
    ) -> Result<Answer, Status> {
        let to = wire_of_words(alloc, self.to)?;
        let form = read_form(alloc, table, root, input)?;
        Ok(Answer {
            status: Status::Done,
            bytes: write_body(alloc, table, root, &to, &form.value)?,
        })
    }
}
