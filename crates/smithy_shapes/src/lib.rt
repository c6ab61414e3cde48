//! Tables of shapes, and the schemas by which a value is read and written.
#![tactic(auto)]

mod build;
mod declares;
mod members;
mod members_iter;
mod schema;
mod shapes;
mod targets;

pub use members_iter::Members;
pub use schema::Schema;
pub use shapes::Shapes;
pub use smithy_declarations::{
    Decl, MemberDecl, Place, Scalar, ShapeId, ShapeRef, ShapeType, TableFault, TableText, Target,
    TimestampFormat,
};
