//! The names that members have on the wires.
ghost use Rattle.std.specs.Prelude.{◌≡◌, ◌++◌, List, [], ◌∷◌, bytes_eq, OnOk};
ghost use Rattle.std.specs.BTreeSet.{contains_text};
ghost use Rattle.smithy_declarations.specs.Acceptance.{json_name_of, query_name_of};
ghost use Rattle.smithy_declarations.specs.Decl as declared;
ghost use Rattle.smithy_declarations.specs.DeclViews.{member_decl_of};
ghost use Rattle.smithy_model_table.specs.Outcomes.{clashes};
ghost use Rattle.smithy_model_table.specs.Roles.{Gains};
ghost use Rattle.smithy_model_table.specs.Taken.{AreTaken};

use crate::places::owned;
use smithy_shapes::MemberDecl;
use std::alloc::{AllocError, Global};
use std::collections::BTreeSet;

/// The names in JSON and in a form that members have.
#[derive(Drop)]
pub(crate) struct TakenNames {
    pub(crate) json: BTreeSet<String>,
    pub(crate) form: BTreeSet<String>,
}

// The name of a declared member in JSON.
fn json_name(decl: &MemberDecl) -> &str
    ensures { result.now ≡ json_name_of (member_decl_of decl.now) }
{
    match &decl.json {
        Some(name) => name.as_str(),
        None => decl.name.as_str(),
    }
}

// The name of a declared member in a form.
fn form_name(decl: &MemberDecl) -> &str
    ensures { result.now ≡ query_name_of (member_decl_of decl.now) }
{
    match &decl.xml {
        Some(name) => name.as_str(),
        None => decl.name.as_str(),
    }
}

// Adds a name.
fn add_name(alloc: Global, names: &mut BTreeSet<String>, name: &str) -> Result<(), AllocError>
    ensures { OnOk result (Gains (λ other. bytes_eq name.now other) (contains_text names.old) (contains_text names.new)) }
{
    names.insert(owned(alloc, name)?)?;
    Ok(())
}

impl TakenNames {
    /// None yet.
    pub(crate) fn none(alloc: Global) -> TakenNames
        ensures { AreTaken [] result }
    {
        TakenNames {
            json: BTreeSet::new(alloc),
            form: BTreeSet::new(alloc),
        }
    }

    /// Whether a name of the member in JSON or in a form is that of an earlier one.
    pub(crate) fn clash_with(&self, decl: &MemberDecl) -> bool
        ensures { (earlier : List declared.MemberDecl) → AreTaken earlier self.now → result ≡ clashes earlier (member_decl_of decl.now) }
    {
        if self.json.contains(json_name(decl)) {
            return true;
        }
        self.form.contains(form_name(decl))
    }

    /// Adds the names of a member.
    pub(crate) fn add(&mut self, alloc: Global, decl: &MemberDecl) -> Result<(), AllocError>
        ensures { OnOk result ((earlier : List declared.MemberDecl) → AreTaken earlier self.old → AreTaken (earlier ++ member_decl_of decl.now ∷ []) self.new) }
    {
        add_name(alloc, &mut self.json, json_name(decl))?;
        add_name(alloc, &mut self.form, form_name(decl))
    }
}
