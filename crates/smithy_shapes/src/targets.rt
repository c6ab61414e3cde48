//! Which targets stand in a table.
ghost use Rattle.std.specs.Prelude.{◌≡◌, map};
ghost use Rattle.std.specs.List.{list_any};
ghost use Rattle.smithy_declarations.specs.Table.{Member};
ghost use Rattle.smithy_shapes.specs.Targets.{shape_has, table_has};
ghost use Rattle.smithy_shapes.specs.Views.{member_of, shape_of, declaration_of};
ghost use Rattle.smithy_shapes.specs.Private.Sought.{is_sought};

use crate::members::MemberShape;
use crate::shapes::{Declaration, Shape};
use smithy_declarations::{Place, Scalar, Target};

/// The targets that are looked for.
#[derive(Clone, Copy)]
pub(crate) enum Sought {
    Timestamps,
    Documents,
}

impl Sought {
    /// Whether some member, some list's elements or some map's values in the declarations are what is sought.
    pub(crate) fn stand_in(self, declarations: &[Declaration]) -> bool
        ensures { result ≡ table_has (is_sought self) (map declaration_of declarations.now) }
    {
        for declaration in declarations {
            if self.stand_in_shape(&declaration.shape) {
                return true;
            }
        }
        false
    }

    // Whether some member, the elements of the list or the values of the map in one declaration are what is sought.
    fn stand_in_shape(self, shape: &Shape) -> bool
        ensures { result ≡ shape_has (is_sought self) (shape_of shape.now) }
    {
        match shape {
            Shape::Structure(members) => self.stand_among(members.items.as_slice()),
            Shape::Union(members) => self.stand_among(members.items.as_slice()),
            Shape::List(list) => self.stand_at(list.place),
            Shape::Map(map) => self.stand_at(map.place),
        }
    }

    // Whether one of these members is what is sought.
    fn stand_among(self, members: &[MemberShape]) -> bool
        ensures { result ≡ list_any (λ (m : Member). is_sought self m.place.target) (map member_of members.now) }
    {
        for member in members {
            if self.stand_at(member.place) {
                return true;
            }
        }
        false
    }

    /// Whether the target of the place is what is sought.
    pub(crate) fn stand_at(self, place: Place) -> bool
        ensures { result ≡ is_sought self place.target }
    {
        match self {
            Sought::Timestamps => place.target == Target::Simple(Scalar::Timestamp),
            Sought::Documents => place.target == Target::Document,
        }
    }
}
