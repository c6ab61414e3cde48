//! The table of shapes that a part of a service's model is.
//!
//! `table_of` answers the text of the table with the shapes that are reached from what is wanted, and the members that
//! it leaves out.
#![tactic(auto)]

mod bindings;
mod bodies;
mod carried;
mod declaring;
mod fault;
mod finding;
mod left;
mod marking;
mod members;
mod names;
mod outcomes;
mod places;
mod reached;
mod roles;
mod table;
mod taken;
mod wanted;

pub use fault::WantedFault;
pub use left::{Left, Reason};
pub use table::{ModelTable, table_of};
pub use wanted::Wanted;
