//! Checks of all libraries that no other row can say, each by its name (docs/ROWS.md): copies and comparisons, parts that are handed
//! out or changed, writers that lend themselves, names of errors that no row has, and the adapters of the system.
#![tactic(auto)]

mod adapters;
mod copies;
mod discriminated;
mod documents;
mod errors;
mod forms;
mod kinds;
mod library;
mod names;
mod process;
mod program;
mod readers;
mod replays;
mod requests;
mod sizes;
mod walk;
mod writers;

pub use program::Checks;
