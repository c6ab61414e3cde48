//! The view of one place of a table.
ghost use Rattle.std.specs.Prelude.{◌≡◌, ◌≢◌, option_map, string_bytes};
ghost use Rattle.smithy_declarations.specs.Table.{kind_of, nothing};

use crate::members::{MemberList, MemberShape};
use crate::shapes::{ListShape, MapShape, Shape, Shapes};
use crate::targets::Sought;
use smithy_declarations::{Place, Scalar, ShapeRef, ShapeType, Target, TimestampFormat};
use std::fmt;

/// Where a view comes from.
#[derive(Clone, Copy)]
pub(crate) enum Origin<'a> {
    /// A shape as a whole.
    Whole,
    /// A member, with its position.
    Member(&'a MemberShape, u32),
    /// The elements of a list.
    Element(&'a ListShape),
    /// The keys of a map.
    Key(&'a MapShape),
    /// The values of a map.
    Value(&'a MapShape),
}

/// A view of one place of a table: of a whole shape, a member, the elements of a list, or the keys or the values of a
/// map.
#[derive(Clone, Copy)]
pub struct Schema<'a> {
    pub(crate) shapes: &'a Shapes,
    pub(crate) place: Place,
    pub(crate) origin: Origin<'a>,
    /// The view has no member name, no position and no flat mark.
    pub(crate) is_nameless: bool,
    ghost is_known: { kind_of shapes.now place ≢ nothing },
}

impl<'a> Schema<'a> {
    ghost use Rattle.std.specs.Prelude.{◌↔◌, ◌≤◌, Some, IsTrue, length, map};
    ghost use Rattle.smithy_declarations.specs.Table.{Member, type_of, members_of, IsSparse, json_name_of, is_document_target};
    ghost use Rattle.smithy_shapes.specs.Targets.{is_timestamp_target};
    ghost use Rattle.smithy_shapes.specs.Holding.{may_hold};
    ghost use Rattle.smithy_shapes.specs.Views.{member_of};
    ghost use Rattle.smithy_shapes.specs.Private.KnownMembers.{AreKnown, FindsMembers};
    ghost use Rattle.smithy_shapes.specs.Site.{site_of, kind_at, member_site, member_named, element_site, value_site, inner_site, key_site, nameless_site};

    /// The kind of the shape, of a member the kind of its target.
    pub fn shape_type(&self) -> ShapeType
        ensures { Some result ≡ type_of (kind_at (site_of self.now)) }
    {
        let shapes = self.shapes;
        match self.place.target {
            Target::Simple(scalar) => scalar.shape_type(),
            Target::Document => ShapeType::Document,
            Target::Declared(shape) => match shapes.shape_at(shape) {
                Some(Shape::Structure(_)) => ShapeType::Structure,
                Some(Shape::Union(_)) => ShapeType::Union,
                Some(Shape::List(_)) => ShapeType::List,
                Some(Shape::Map(_)) => ShapeType::Map,
                None => unreachable!(),
            },
        }
    }

    /// The name of a member, or `member`, `key` or `value` at elements, keys and values.
    pub fn member_name(&self) -> Option<&'a str>
        ensures { option_map (λ s. s.now) result ≡ (site_of self.now).view.name }
    {
        if self.is_nameless {
            return None;
        }
        match self.origin {
            Origin::Whole => None,
            Origin::Member(member, _) => Some(member.name.as_str()),
            Origin::Element(_) => Some("member"),
            Origin::Key(_) => Some("key"),
            Origin::Value(_) => Some("value"),
        }
    }

    /// The position of a member, from 0.
    pub fn member_index(&self) -> Option<u32>
        ensures { result ≡ (site_of self.now).view.index }
    {
        if self.is_nameless {
            return None;
        }
        match self.origin {
            Origin::Member(_, position) => Some(position),
            _ => None,
        }
    }

    /// The name of a member in JSON, where one is given.
    pub fn json_name(&self) -> Option<&'a str>
        ensures { option_map (λ s. s.now) result ≡ (site_of self.now).view.json_name }
    {
        match self.origin {
            Origin::Member(member, _) => member.json_name.as_deref(),
            _ => None,
        }
    }

    /// The name of a member, of elements, keys or values in a form, where one is given.
    pub fn xml_name(&self) -> Option<&'a str>
        ensures { option_map (λ s. s.now) result ≡ (site_of self.now).view.xml_name }
    {
        match self.origin {
            Origin::Whole => None,
            Origin::Member(member, _) => member.xml_name.as_deref(),
            Origin::Element(list) => list.xml_name.as_deref(),
            Origin::Key(map) => map.key_name.as_deref(),
            Origin::Value(map) => map.value_name.as_deref(),
        }
    }

    /// The member is flat: in a form its entries stand under its own name.
    pub fn xml_flattened(&self) -> bool
        ensures { result ≡ (site_of self.now).view.is_flat }
    {
        if self.is_nameless {
            return false;
        }
        match self.origin {
            Origin::Member(member, _) => member.flat,
            _ => false,
        }
    }

    /// The form of instants that is given at the place: it has an effect on timestamps alone.
    pub fn timestamp_format(&self) -> Option<TimestampFormat>
        ensures { result ≡ (site_of self.now).place.time }
    {
        self.place.time
    }

    /// A timestamp may stand in a value of the place: the place is one of timestamps, or some place of its table is.
    pub fn may_hold_timestamps(&self) -> bool
        ensures { result ≡ may_hold is_timestamp_target (site_of self.now) }
    {
        Sought::Timestamps.stand_at(self.place) || self.shapes.has_timestamps()
    }

    /// A document may stand in a value of the place: the place is one of documents, or some place of its table is.
    pub fn may_hold_documents(&self) -> bool
        ensures { result ≡ may_hold is_document_target (site_of self.now) }
    {
        Sought::Documents.stand_at(self.place) || self.shapes.has_documents()
    }

    /// The elements of a list, or the values of a map.
    pub fn member(&self) -> Option<Schema<'a>>
        ensures { option_map site_of result ≡ inner_site (site_of self.now) }
    {
        match self.element() {
            Some(element) => Some(element),
            None => self.map_value(),
        }
    }

    /// The elements of a list.
    pub fn element(&self) -> Option<Schema<'a>>
        ensures { option_map site_of result ≡ element_site (site_of self.now) }
    {
        let shapes = self.shapes;
        match self.place.target {
            Target::Simple(_) => None,
            Target::Document => None,
            Target::Declared(shape) => {
                let list = shapes.list_at(shape)?;
                Some(Schema {
                    shapes,
                    place: list.place,
                    origin: Origin::Element(list),
                    is_nameless: false,
                })
            }
        }
    }

    // The values of a map.
    fn map_value(&self) -> Option<Schema<'a>>
        ensures { option_map site_of result ≡ value_site (site_of self.now) }
    {
        let shapes = self.shapes;
        match self.place.target {
            Target::Simple(_) => None,
            Target::Document => None,
            Target::Declared(shape) => {
                let map = shapes.map_at(shape)?;
                Some(Schema {
                    shapes,
                    place: map.place,
                    origin: Origin::Value(map),
                    is_nameless: false,
                })
            }
        }
    }

    /// The keys of a map, which are strings.
    pub fn key(&self) -> Option<Schema<'a>>
        ensures { option_map site_of result ≡ key_site (site_of self.now) }
    {
        let shapes = self.shapes;
        match self.place.target {
            Target::Simple(_) => None,
            Target::Document => None,
            Target::Declared(shape) => {
                let map = shapes.map_at(shape)?;
                Some(Schema {
                    shapes,
                    place: Place {
                        target: Target::Simple(Scalar::String),
                        time: None,
                    },
                    origin: Origin::Key(map),
                    is_nameless: false,
                })
            }
        }
    }

    /// The member at a position, from 0.
    pub fn member_at(&self, position: u32) -> Option<Schema<'a>>
        ensures { option_map site_of result ≡ member_site (site_of self.now) position }
    {
        let shapes = self.shapes;
        match self.place.target {
            Target::Simple(_) => None,
            Target::Document => None,
            Target::Declared(shape) => {
                let member = shapes.member_at(shape, position)?;
                Some(Schema {
                    shapes,
                    place: member.place,
                    origin: Origin::Member(member, position),
                    is_nameless: false,
                })
            }
        }
    }

    /// The member of a name.
    pub fn member_schema(&self, name: &str) -> Option<Schema<'a>>
        ensures { option_map site_of result ≡ member_named (λ (m : Member). m.name) (site_of self.now) name.now }
    {
        let members = self.members_at_place()?;
        let position = members.position_of_name(name)?;
        self.member_among(members, position)
    }

    /// The member of a name in JSON: of the one that is given, or of its own where none is.
    pub fn member_of_json_name(&self, name: &str) -> Option<Schema<'a>>
        ensures { option_map site_of result ≡ member_named json_name_of (site_of self.now) name.now }
    {
        let members = self.members_at_place()?;
        let position = members.position_of_json_name(name)?;
        self.member_among(members, position)
    }

    // The members of the structure or the union that stands at the place, if one does.
    pub(crate) fn members_at_place(&self) -> Option<&'a MemberList>
        ensures { FindsMembers self.now.shapes.now (kind_at (site_of self.now)) result }
    {
        match self.place.target {
            Target::Simple(_) => None,
            Target::Document => None,
            Target::Declared(shape) => self.shapes.members_at(shape),
        }
    }

    // The member at a position among those of the structure or the union that stands at the place.
    fn member_among(&self, members: &'a MemberList, position: usize) -> Option<Schema<'a>>
        requires few { length members.now.items.items ≤ 65535 }
        requires members { map member_of members.now.items.items ≡ members_of (kind_at (site_of self.now)) }
        requires known { AreKnown self.now.shapes.now members.now.items.items }
        ensures { option_map site_of result ≡ member_site (site_of self.now) position }
    {
        let member = members.items.get(position)?;
        Some(Schema {
            shapes: self.shapes,
            place: member.place,
            origin: Origin::Member(member, position as u32),
            is_nameless: false,
        })
    }

    /// The list or the map is sparse.
    pub fn is_sparse(&self) -> bool
        ensures { IsTrue result ↔ IsSparse (kind_at (site_of self.now)) }
    {
        let shapes = self.shapes;
        match self.place.target {
            Target::Simple(_) => false,
            Target::Document => false,
            Target::Declared(shape) => match shapes.shape_at(shape) {
                Some(Shape::List(list)) => list.sparse,
                Some(Shape::Map(map)) => map.sparse,
                _ => false,
            },
        }
    }

    /// A view of the place without a member name, a position and the flat mark. It keeps its time form.
    pub fn nameless(&self) -> Schema<'a>
        ensures { site_of result ≡ nameless_site (site_of self.now) }
    {
        Schema {
            shapes: self.shapes,
            place: self.place,
            origin: self.origin,
            is_nameless: true,
        }
    }
}

impl fmt::Debug for Schema<'_> {
    fn fmt<W: fmt::Write>(&self, f: &mut fmt::Formatter<W>) -> fmt::Result {
        f.debug_struct("Schema")
            .field("shape_type", &self.shape_type())
            .field("member_name", &self.member_name())
            .finish_non_exhaustive()
    }
}
