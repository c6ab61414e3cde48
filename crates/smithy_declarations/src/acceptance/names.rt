//! The names in declarations.
ghost use Rattle.std.specs.Prelude.{◌≡◌, map, option_map, unwrap_or, string_bytes};
ghost use Rattle.smithy_declarations.specs.Decl.{MemberDecl};
ghost use Rattle.smithy_declarations.specs.Acceptance.{json_name_of, query_name_of};
ghost use Rattle.smithy_declarations.specs.DeclViews.{decl_of, member_decl_of};
ghost use Rattle.smithy_declarations.specs.Private.DeclNames.{declared_name};

use crate::decl::{Decl, MemberDecl};
use crate::names::Named;

/// The name that is given, or the other one where none is.
pub fn given_or<'a>(given: &'a Option<String>, other: &'a str) -> &'a str
    ensures { result.now ≡ unwrap_or (option_map string_bytes given.now) other.now }
{
    match given {
        Some(name) => name.as_str(),
        None => other,
    }
}

/// The names of the declarations.
#[derive(Clone, Copy)]
pub struct DeclaredNames<'a>(pub &'a [Decl]);

impl Named for DeclaredNames<'_> {
    ghost names = { λ s. map declared_name s.0.now };

    fn count(&self) -> usize {
        self.0.len()
    }

    fn name_at(&self, position: usize) -> &str {
        self.0[position].name()
    }
}

/// The names of members.
#[derive(Clone, Copy)]
pub struct MemberNames<'a>(pub &'a [MemberDecl]);

impl Named for MemberNames<'_> {
    ghost names = { λ s. map (λ (m : MemberDecl). m.name) (map member_decl_of s.0.now) };

    fn count(&self) -> usize {
        self.0.len()
    }

    fn name_at(&self, position: usize) -> &str {
        self.0[position].name.as_str()
    }
}

/// The JSON names of members.
#[derive(Clone, Copy)]
pub struct JsonNames<'a>(pub &'a [MemberDecl]);

impl Named for JsonNames<'_> {
    ghost names = { λ s. map json_name_of (map member_decl_of s.0.now) };

    fn count(&self) -> usize {
        self.0.len()
    }

    fn name_at(&self, position: usize) -> &str {
        let member = &self.0[position];
        given_or(&member.json, member.name.as_str())
    }
}

/// The names of members in a form.
#[derive(Clone, Copy)]
pub struct QueryNames<'a>(pub &'a [MemberDecl]);

impl Named for QueryNames<'_> {
    ghost names = { λ s. map query_name_of (map member_decl_of s.0.now) };

    fn count(&self) -> usize {
        self.0.len()
    }

    fn name_at(&self, position: usize) -> &str {
        let member = &self.0[position];
        given_or(&member.xml, member.name.as_str())
    }
}
