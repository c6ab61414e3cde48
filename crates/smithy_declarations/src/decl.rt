//! Declarations as a table text has them.

/// A member of a structure or a union, with its options as they are given.
#[derive(Debug, Drop)]
pub struct MemberDecl {
    pub name: String,
    /// The name of a scalar or of a declaration.
    pub target: String,
    pub json: Option<String>,
    pub xml: Option<String>,
    pub flat: bool,
    pub time: Option<String>,
}

/// A declaration, with its options as they are given.
#[derive(Debug, Drop)]
pub enum Decl {
    Structure {
        name: String,
        members: Vec<MemberDecl>,
    },
    Union {
        name: String,
        members: Vec<MemberDecl>,
    },
    List {
        name: String,
        target: String,
        sparse: bool,
        xml: Option<String>,
        time: Option<String>,
    },
    Map {
        name: String,
        target: String,
        sparse: bool,
        key: Option<String>,
        value: Option<String>,
        time: Option<String>,
    },
}

impl Decl {
    ghost use Rattle.std.specs.Prelude.{◌≡◌, map};
    ghost use Rattle.smithy_declarations.specs.DeclViews.{decl_of, member_decl_of};
    ghost use Rattle.smithy_declarations.specs.Acceptance.{members_of};

    /// The name of the shape.
    pub fn name(&self) -> &str
        ensures { result.now ≡ (decl_of self.now).name }
    {
        match self {
            Decl::Structure { name, .. } => name.as_str(),
            Decl::Union { name, .. } => name.as_str(),
            Decl::List { name, .. } => name.as_str(),
            Decl::Map { name, .. } => name.as_str(),
        }
    }

    /// The members of a structure or a union. A list or a map has none.
    pub fn members(&self) -> &[MemberDecl]
        ensures { map member_decl_of result.now ≡ members_of (decl_of self.now).form }
    {
        match self {
            Decl::Structure { members, .. } => members.as_slice(),
            Decl::Union { members, .. } => members.as_slice(),
            _ => &[],
        }
    }
}
