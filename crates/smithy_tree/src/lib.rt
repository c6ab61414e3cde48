//! A tree of values in a pool: nodes of 16 bytes without a lifetime, which name their texts, their bytes and their children by numbers.
#![tactic(auto)]

mod bytes;
mod elements;
mod in_maps;
mod node;
mod order;
mod pool;

pub use elements::Elements;
pub use node::{Node, Rare, Slot};
pub use pool::Pool;
