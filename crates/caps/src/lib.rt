//! Devices: what stands outside a program, and what it may ask of that.
//!
//! A `Device` is of one `Kind`, is asked by a `Request`, and gives a `DeviceAnswer`. Where it tells its state, the answer and the next
//! state are those of the table in `specs/Table.antt`; where it doesn't, the answer has the form that the table has for the
//! request (`specs/Forms.antt`). `MemoryConsole` and its kin are devices in memory, which tell their states and fail where they
//! are told to. Contracts see requests and answers as plain data, with texts as lists of UTF-16 units.
#![tactic(auto)]

mod boxed;
mod cell;
mod clock;
mod console;
mod device;
mod inbox;
mod request;
mod store;

pub use cell::MemoryCell;
pub use clock::MemoryClock;
pub use console::MemoryConsole;
pub use device::{Device, DeviceFault};
pub use inbox::MemoryInbox;
pub use request::{DeviceAnswer, Kind, Request};
pub use store::{MemoryStore, Pair};
