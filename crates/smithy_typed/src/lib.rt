//! Types of a client's own that read and write themselves, put together from the types of their parts.
#![tactic(auto)]

mod fields;
mod lists;
mod maps;
mod scalars;
mod structures;
mod typed;
mod variants;

pub use fields::{Field, FieldList, FieldRef, NoField, WriteFieldList, member_under};
pub use lists::elements_under;
pub use maps::{keys_under, put_value, values_under};
pub use structures::{
    FromFields, is_structure_of, read_root, read_structure, write_root, write_structure,
};
pub use typed::Typed;
pub use variants::{
    FromVariants, LastVariant, Variant, VariantList, is_union_of, read_union, write_variant,
};
