//! The command `lint`: all that is found in one body.
ghost use Rattle.std.specs.Prelude.{◌≡◌, ◌<◌, ◌++◌, length, map as mapped, option_map, string_bytes, IfOk};
ghost use Rattle.smithy_lint.specs.View.{found_of};
ghost use Rattle.smithy_commands.specs.Lint.{lint_of, lint_view, kind_text, finding_lines, status_of_found, status_of_lint_error, answers_of};

use crate::one_input::{Answer, AnswerInput};
use crate::status::Status;
use crate::wire_words::{WireWords, read_wire, wire_of_words};
use smithy_compare::path_text;
use smithy_lint::{Finding, Kind, LintError, lint};
use smithy_shapes::{ShapeRef, Shapes};
use std::alloc::{AllocError, Global};

impl From<LintError> for Status {
    ghost from_gives = { λ error status. status ≡ status_of_lint_error error };

    fn from(error: LintError) -> Self {
        match error {
            LintError::NotWellFormed => Status::NotWellFormed,
            LintError::TooNested => Status::TooNested,
            LintError::NoMemory => Status::OutOfMemory,
        }
    }
}

/// `lint TABLE ROOT WIRE`
#[derive(Clone, Copy)]
pub struct Lint<'a> {
    /// The path of the table.
    pub table: &'a str,
    /// The name of the shape of which the body is.
    pub root: &'a str,
    /// The wire of the body.
    pub wire: WireWords<'a>,
}

impl<'a> Lint<'a> {
    /// The command that the words after `lint` are, if they are one.
    pub fn from_words(words: &'a [String]) -> Option<Lint<'a>>
        ensures { option_map lint_view result ≡ lint_of (mapped string_bytes words.now) }
    {
        match words {
            [table, root, wire] => Some(Lint {
                table: table.as_str(),
                root: root.as_str(),
                wire: read_wire(wire.as_str())?,
            }),
            _ => None,
        }
    }
}

// By whether anything was found.
fn status_of(findings: &[Finding]) -> Status
    ensures { result ≡ status_of_found (mapped found_of findings.now) }
{
    match findings {
        [] => Status::Done,
        _ => Status::FindingsTold,
    }
}

// The word of a kind.
fn word(kind: Kind) -> &'static str
    ensures { result.now ≡ kind_text kind }
{
    match kind {
        Kind::Unknown => "unknown",
        Kind::Mismatch => "mismatch",
        Kind::Wide => "wide",
        Kind::NotCarried => "not carried",
        Kind::Deep => "deep",
        Kind::Key => "key",
        Kind::Union => "union",
        Kind::Null => "null",
    }
}

// A line for each finding.
fn lines_of(
    alloc: Global,
    table: &Shapes,
    root: ShapeRef,
    findings: &[Finding],
) -> Result<Vec<u8>, AllocError>
    requires root { root.0 < length table.now }
    ensures { IfOk result (λ lines. lines.items ≡ finding_lines table.now root.0 (mapped found_of findings.now)) }
{
    let mut lines = Vec::new(alloc);
    for finding in findings {
        lines.extend_from_slice(path_text(alloc, table, root, &finding.path)?.as_bytes())?;
        lines.extend_from_slice(b" ")?;
        lines.extend_from_slice(word(finding.kind).as_bytes())?;
        lines.extend_from_slice(b"\n")?;
    }
    Ok(lines)
}

impl AnswerInput for Lint<'_> {
    ghost command = { λ self. answers_of (lint_view self) };

    fn table(&self) -> &str {
        self.table
    }

    fn root(&self) -> &str {
        self.root
    }

    fn answer(
        &self,
        alloc: Global,
        table: &Shapes,
        root: ShapeRef,
        input: &[u8],
    ) -> Result<Answer, Status> {
        let wire = wire_of_words(alloc, self.wire)?;
        let findings = lint(alloc, table, root, &wire, input)?;
        Ok(Answer {
            status: status_of(&findings),
            bytes: lines_of(alloc, table, root, &findings)?,
        })
    }
}
