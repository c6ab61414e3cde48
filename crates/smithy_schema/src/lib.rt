//! The traits by which values are read and written as a table of shapes directs. The tables themselves are handed on.
#![tactic(auto)]

mod accept;
mod borrow;
mod consume;
mod elements;
mod entries;
mod error;
mod fields;
mod pieces;
mod read;
mod sizes;
mod spans;
mod step;
mod text_maps;
mod write;
mod written;
mod written_instant;

pub use accept::Accept;
pub use borrow::BorrowDeserializer;
pub use consume::{ListConsumer, MapConsumer, StructConsumer};
pub use elements::{Elements, ReadScalar};
pub use error::SerdeError;
pub use fields::{
    WriteFields, WriteMember, Written, WrittenList, read_field, write_field, write_structure,
};
pub use pieces::{BytesPiece, PieceDeserializer, TextPiece};
pub use read::ShapeDeserializer;
pub use sizes::capped_container_size;
pub use smithy_shapes::{
    Decl, MemberDecl, Members, Place, Scalar, Schema, ShapeId, ShapeRef, ShapeType, Shapes,
    TableFault, TableText, Target, TimestampFormat,
};
pub use spans::{BytesSpan, TextSpan};
pub use step::Step;
pub use text_maps::TextEntries;
pub use write::{FinishSerializer, ShapeSerializer};
pub use written::{SerializableStruct, WriteElements};
pub use written_instant::instant_text;
