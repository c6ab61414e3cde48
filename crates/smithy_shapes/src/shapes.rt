//! The table of shapes.
use crate::members::{MemberList, MemberShape};
use crate::schema::{Origin, Schema};
use smithy_declarations::names::{Named, position_of};
use smithy_declarations::{Place, ShapeRef, Target};
use std::marker::Model;

#[derive(Debug, Drop)]
pub(crate) struct ListShape {
    pub(crate) place: Place,
    pub(crate) sparse: bool,
    pub(crate) xml_name: Option<String>,
}

#[derive(Debug, Drop)]
pub(crate) struct MapShape {
    pub(crate) place: Place,
    pub(crate) sparse: bool,
    pub(crate) key_name: Option<String>,
    pub(crate) value_name: Option<String>,
}

#[derive(Debug, Drop)]
pub(crate) enum Shape {
    Structure(MemberList),
    Union(MemberList),
    List(ListShape),
    Map(MapShape),
}

#[derive(Debug, Drop)]
pub(crate) struct Declaration {
    pub(crate) name: String,
    pub(crate) shape: Shape,
}

// The names of the declarations, in order.
#[derive(Clone, Copy)]
struct DeclaredNames<'a>(&'a [Declaration]);

impl Named for DeclaredNames<'_> {
    ghost use Rattle.std.specs.Prelude.{map, string_bytes};
    ghost use Rattle.smithy_shapes.specs.declared.shapes.Declaration.{Declaration};

    ghost names = { λ s. map (λ (d : Declaration). string_bytes d.name) s.0.now };

    fn count(&self) -> usize {
        self.0.len()
    }

    fn name_at(&self, position: usize) -> &str {
        self.0[position].name.as_str()
    }
}

/// A table of shapes that was accepted.
#[derive(Debug, Drop)]
pub struct Shapes {
    pub(crate) declarations: Vec<Declaration>,
    pub(crate) by_name: Vec<usize>,
    /// Whether some member, some list's elements or some map's values in the declarations are timestamps. Where none are, no
    /// value needs a look for one.
    pub(crate) has_timestamps: bool,
    /// Whether some member, some list's elements or some map's values in the declarations are documents. Where none are, no value
    /// needs a look for one.
    pub(crate) has_documents: bool,
}

impl Model for Shapes {
    ghost use Rattle.std.specs.Prelude.{◌≡◌, map, string_bytes};
    ghost use Rattle.smithy_declarations.specs.Table.{Table, is_document_target};
    ghost use Rattle.smithy_shapes.specs.Targets.{is_timestamp_target, table_has};
    ghost use Rattle.smithy_shapes.specs.Accepted.{IsAccepted};
    ghost use Rattle.smithy_declarations.specs.Private.Order.{IsOrderOf};
    ghost use Rattle.smithy_shapes.specs.Views.{declaration_of};
    ghost use Rattle.smithy_shapes.specs.declared.shapes.Declaration.{Declaration};

    ghost Value = { Table };

    ghost view = { λ s. map declaration_of s.declarations.items };

    ghost invariant = { λ s. IsAccepted (map declaration_of s.declarations.items)
        × IsOrderOf (map (λ (d : Declaration). string_bytes d.name) s.declarations.items) s.by_name.items
        × (s.has_timestamps ≡ table_has is_timestamp_target (map declaration_of s.declarations.items))
        × (s.has_documents ≡ table_has is_document_target (map declaration_of s.declarations.items)) };
}

impl Shapes {
    ghost use Rattle.std.specs.Prelude.{◌≡◌, ◌≢◌, ◌<◌, length, map, option_map, slice_get, IfSome};
    ghost use Rattle.smithy_declarations.specs.declared.shape_type.ShapeRef.{ShapeRef};
    ghost use Rattle.smithy_declarations.specs.Table.{kind_of, shape_place, IsClosed, list_shape_of as list_at_kind, map_shape_of as map_at_kind, members_of, nothing, shape_declared, declared_as, is_document_target};
    ghost use Rattle.smithy_shapes.specs.Targets.{is_timestamp_target, table_has};
    ghost use Rattle.smithy_shapes.specs.Accepted.{IsAccepted};
    ghost use Rattle.smithy_shapes.specs.Site.{site_of, shape_site};
    ghost use Rattle.smithy_shapes.specs.Views.{shape_of, member_of, list_shape_of, map_shape_of};
    ghost use Rattle.smithy_shapes.specs.Private.KnownMembers.{FindsMembers};

    /// The number of declarations.
    pub fn len(&self) -> usize
        ensures length { result ≡ length self.now }
        ensures accepted { IsAccepted self.now }
    {
        self.declarations.len()
    }

    /// The declaration of a name, by its number.
    pub fn find(&self, name: &str) -> Option<ShapeRef>
        ensures { option_map (λ (r : ShapeRef). r.0) result ≡ declared_as self.now name.now }
    {
        let number = position_of(
            &DeclaredNames(self.declarations.as_slice()),
            self.by_name.as_slice(),
            name,
        )?;
        Some(ShapeRef(number as u32))
    }

    /// Some member, some elements of a list or some values of a map are timestamps.
    pub(crate) fn has_timestamps(&self) -> bool
        ensures { result ≡ table_has is_timestamp_target self.now }
    {
        self.has_timestamps
    }

    /// Some member, some elements of a list or some values of a map are documents.
    pub(crate) fn has_documents(&self) -> bool
        ensures { result ≡ table_has is_document_target self.now }
    {
        self.has_documents
    }

    /// The view of a declaration as a whole.
    pub fn schema(&self, at: ShapeRef) -> Schema<'_>
        requires { at.0 < length self.now }
        ensures site { site_of result ≡ shape_site self.now at.0 }
        ensures accepted { IsAccepted self.now }
    {
        let count = self.len();
        prove!((at.0 as usize) < count);
        Schema {
            shapes: self,
            place: Place {
                target: Target::Declared(at),
                time: None,
            },
            origin: Origin::Whole,
            is_nameless: false,
        }
    }

    // The shape of the declaration of that number, if there is one.
    pub(crate) fn shape_at(&self, at: ShapeRef) -> Option<&Shape>
        ensures found { option_map (λ s. shape_of s.now) result ≡ shape_declared self.now at.0 }
        ensures accepted { IsAccepted self.now }
    {
        let declaration = self.declarations.get(at.0 as usize)?;
        Some(&declaration.shape)
    }

    // The member at a position of the declaration of that number, if it is a structure or a union with a member there.
    pub(crate) fn member_at(&self, at: ShapeRef, position: u32) -> Option<&MemberShape>
        ensures found { option_map (λ m. member_of m.now) result
            ≡ slice_get (members_of (kind_of self.now (shape_place at.0))) position }
        ensures known { IfSome result (λ m. kind_of self.now m.now.place ≢ nothing) }
    {
        self.find_member(at, position)
    }

    // The member at a position of the declaration of that number, if it is a structure or a union with a member there. The answer
    // says too that every place of the table is known.
    fn find_member(&self, at: ShapeRef, position: u32) -> Option<&MemberShape>
        ensures found { option_map (λ m. member_of m.now) result
            ≡ slice_get (members_of (kind_of self.now (shape_place at.0))) position }
        ensures closed { IsClosed self.now }
    {
        match self.shape_at(at) {
            Some(Shape::Structure(members)) => members.items.get(position as usize),
            Some(Shape::Union(members)) => members.items.get(position as usize),
            _ => None,
        }
    }

    // The members of the declaration of that number, if it is a structure or a union.
    pub(crate) fn members_at(&self, at: ShapeRef) -> Option<&MemberList>
        ensures { FindsMembers self.now (kind_of self.now (shape_place at.0)) result }
    {
        match self.shape_at(at) {
            Some(Shape::Structure(members)) => Some(members),
            Some(Shape::Union(members)) => Some(members),
            _ => None,
        }
    }

    // The list that is declared under that number, if it is one.
    pub(crate) fn list_at(&self, at: ShapeRef) -> Option<&ListShape>
        ensures found { option_map (λ l. list_shape_of l.now) result
            ≡ list_at_kind (kind_of self.now (shape_place at.0)) }
        ensures known { IfSome result (λ l. kind_of self.now l.now.place ≢ nothing) }
    {
        match self.shape_at(at) {
            Some(Shape::List(list)) => Some(list),
            _ => None,
        }
    }

    // The map that is declared under that number, if it is one.
    pub(crate) fn map_at(&self, at: ShapeRef) -> Option<&MapShape>
        ensures found { option_map (λ m. map_shape_of m.now) result
            ≡ map_at_kind (kind_of self.now (shape_place at.0)) }
        ensures known { IfSome result (λ m. kind_of self.now m.now.place ≢ nothing) }
    {
        match self.shape_at(at) {
            Some(Shape::Map(map)) => Some(map),
            _ => None,
        }
    }
}
