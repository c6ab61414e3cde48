//! The shapes of a service's model: a Smithy 2.0 model as JSON, or the `service-2.json` that the command line of AWS ships.
//!
//! `read_model` reads one, told apart by its members `smithy` and `metadata`. A `Model` borrows its texts from the JSON text.
#![tactic(auto)]

mod fault;
mod format;
mod kinds;
mod links;
mod members;
mod mixin_order;
mod mixins;
mod model;
mod numbers;
mod objects;
mod parts;
mod prelude;
mod protocol;
mod reading;
mod references;
mod shapes;
mod users;

pub use fault::ModelFault;
pub use model::{Entry, Kind, Member, Model, Operation, Reference, Shape};
pub use numbers::place_of;
pub use reading::read_model;
pub use users::Users;
