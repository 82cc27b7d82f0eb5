//! Objects in memory that meet the traits of the outside: for tests, and for runs that touch no file.
//!
//! An object with a list `fail_at` numbers its calls from 0, and the calls whose numbers stand in the list fail. A
//! `StopPlant` fails all calls but the first ones. An object that grows fails also where memory refuses the growth, and
//! then does nothing else.
#![tactic(auto)]

mod disk;
mod mem_plant;
mod mem_sink;
mod mem_source;
mod plan;
mod stop_plant;
mod tape;
#[cfg(test)]
mod tests;

pub use mem_plant::MemPlant;
pub use mem_sink::MemSink;
pub use mem_source::{MemSource, NoFaultSource};
pub use stop_plant::{Pick, StopPlant};
pub use tape::PlantCall;
