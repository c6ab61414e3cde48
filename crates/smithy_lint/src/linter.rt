//! Where a walk stands, and what it has found so far.
ghost use Rattle.std.specs.Prelude.{◌≡◌, ◌++◌, ◌∷◌, [], List, map as mapped, IfOk, OnOk};
ghost use Rattle.smithy_compare.specs.Tree.{Step};
ghost use Rattle.smithy_lint.specs.Findings.{one};
ghost use Rattle.smithy_compare.specs.View.{step_of, path_of as parts_path};
ghost use Rattle.smithy_lint.specs.Private.Walks.{label_step, path_of, found_of, Adds, told};

use crate::finding::{Finding, Kind};
use smithy_compare::PathPart;
use std::alloc::{AllocError, Global};
use std::borrow::CowStr;

/// One step of the path to where a walk stands, with a key where it is kept.
#[derive(Drop)]
pub enum Label<'b> {
    /// To the member at this position.
    Member(u32),
    /// To the element at this index.
    Element(u64),
    /// To the value of this key.
    Key(CowStr<'b, Global>),
}

/// The path to where a walk stands, and what it has found so far.
#[derive(Drop)]
pub struct Linter<'b> {
    pub(crate) path: Vec<Label<'b>>,
    pub(crate) findings: Vec<Finding>,
}

// The step as a part of a path.
fn part_of(alloc: Global, label: &Label<'_>) -> Result<PathPart, AllocError>
    ensures { IfOk result (λ part. step_of part ≡ label_step label.now) }
{
    match label {
        Label::Member(position) => Ok(PathPart::Member(*position)),
        Label::Element(index) => Ok(PathPart::Element(*index)),
        Label::Key(text) => Ok(PathPart::Key(String::from_str(alloc, text.as_str())?)),
    }
}

// The steps as a path.
fn path_parts(alloc: Global, labels: &[Label<'_>]) -> Result<Vec<PathPart>, AllocError>
    ensures { IfOk result (λ parts. parts_path parts ≡ mapped label_step labels.now) }
{
    let mut parts = Vec::with_capacity(alloc, labels.len())?;
    for label in labels {
        parts.push(part_of(alloc, label)?)?;
    }
    Ok(parts)
}

impl<'b> Linter<'b> {
    // Goes one step further.
    pub(crate) fn enter(&mut self, label: Label<'b>) -> Result<(), AllocError>
        ensures path { OnOk result (path_of self.new ≡ path_of self.old ++ label_step label.entry ∷ []) }
        ensures found { OnOk result (found_of self.new ≡ found_of self.old) }
    {
        self.path.push(label)?;
        Ok(())
    }

    // Goes one step back.
    pub(crate) fn leave(&mut self)
        ensures path { (path : List Step) (s : Step) → path_of self.old ≡ path ++ s ∷ [] → path_of self.new ≡ path }
        ensures found { found_of self.new ≡ found_of self.old }
    {
        self.path.pop();
    }

    // Adds a finding where the walk stands.
    pub(crate) fn report(&mut self, alloc: Global, kind: Kind) -> Result<(), AllocError>
        ensures { OnOk result (Adds self.old self.new (one (path_of self.old) kind)) }
    {
        let path = path_parts(alloc, self.path.as_slice())?;
        self.findings.push(Finding { path, kind })?;
        Ok(())
    }

    // Adds a finding where the walk stands, if there is one.
    pub(crate) fn report_if(&mut self, alloc: Global, kind: Option<Kind>) -> Result<(), AllocError>
        ensures { OnOk result (Adds self.old self.new (told (path_of self.old) kind)) }
    {
        match kind {
            Some(kind) => self.report(alloc, kind),
            None => Ok(()),
        }
    }
}
