//! Values, trees of values in any store, and their reading and writing over the traits of readers and serializers.
#![tactic(auto)]

mod borrowing;
mod entries;
mod entry_iter;
mod placing;
mod pool_trees;
mod reading;
mod runs;
mod tree;
mod value;
mod value_trees;
mod writing;

pub use entries::{Entries, Members};
pub use entry_iter::{EntryIter, MemberIter};
pub use reading::{read_tree, read_value};
pub use tree::{Part, Trees};
pub use value::Value;
pub use value_trees::ValueTrees;
pub use writing::{write_tree, write_value};
