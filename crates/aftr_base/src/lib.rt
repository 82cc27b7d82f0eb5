//! Values and events that every crate speaks of.
#![tactic(auto)]

mod checksum;
mod event;
mod list;
mod memory;
mod octets;
mod outcome;
mod row;
mod told;
mod value;

pub use checksum::{adjust, sum16};
pub use event::{DropCause, Event, EventKind, LogEvent};
pub use list::{List, Packets};
pub use memory::NoMemory;
pub use octets::{u16_in, u32_in, u64_in, u128_in};
pub use outcome::{DropCounts, Key, Mark, Outcome, Status, Word};
pub use row::{LeaseRow, PlanRow, PlanSpec};
pub use told::Told;
pub use value::{
    Ext, Form, InnerKey, Ip4, Ip6, LOG_MOMENT_LIMIT, MOMENT_LIMIT, Moment, Prefix4, Prefix6, Proto,
    Side, Subscriber,
};
