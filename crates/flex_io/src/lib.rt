//! The devices at a run's edge: sources, sinks, slots on racks and gates, which count their faults.
#![tactic(auto)]

mod call_plan;
mod fail_plan;
mod fault;
mod gate;
mod memory_piece;
mod memory_rack;
mod memory_sink;
mod memory_source;
mod rack;
mod raw_place;
mod sink;
mod slot;
mod source;
mod std_sink;
mod std_source;
mod streams;
mod sure_piece;
mod sure_rack;
mod sure_sink;
mod sure_source;

pub use call_plan::{Fail, RackCall};
pub use fault::{Failed, Fault};
pub use gate::{Gate, OpenGate, Point};
pub use memory_piece::MemoryPiece;
pub use memory_rack::MemoryRack;
pub use memory_sink::MemorySink;
pub use memory_source::MemorySource;
pub use rack::{Rack, Returned};
pub use raw_place::RawPlace;
pub use sink::Sink;
pub use slot::{Slot, Steady};
pub use source::Source;
pub use std_sink::StdSink;
pub use std_source::StdSource;
pub use streams::{Input, read_up_to, write_all};
pub use sure_piece::SurePiece;
pub use sure_rack::SureRack;
pub use sure_sink::SureSink;
pub use sure_source::SureSource;
