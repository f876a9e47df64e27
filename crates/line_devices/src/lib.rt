//! Devices that bytes come from and go to, devices over memory that stand for them, and readers and
//! writers of std as devices: standard input and output, files, pipes and sockets. Contracts know
//! nothing of the bytes of these.
//!
//! A read or a write that a signal interrupts is made again, and is no fault. A writer that takes
//! nothing has failed, and so has a device that was opened not to wait and is not ready.
#![tactic(auto)]

mod devices;
mod memory;
mod readers;
mod sinks;
mod sources;
mod tries;
mod writers;

pub use devices::DeviceFault;
pub use memory::{MemSink, MemSource};
pub use readers::ReadSource;
pub use sinks::{Sink, put_all};
pub use sources::{MOST_INPUT, ReadRefused, Source, read_all};
pub use writers::WriteSink;
