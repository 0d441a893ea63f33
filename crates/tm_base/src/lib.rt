//! What every other crate stands on: names, places in a text, the step counter, files and sinks, and arithmetic on
//! unsigned numbers of 1 to 64 bits.
#![tactic(auto)]

mod bit_laws;
mod disk_files;
mod fail_plan;
mod files;
mod mem_files;
mod mem_sink;
mod name;
mod operations;
mod place;
mod shift_operator;
mod sink;
mod std_sink;
mod steps;
mod transfer;

pub use bit_laws::numbers_are_their_bits;
pub use disk_files::DiskFiles;
pub use files::{FileError, Files};
pub use mem_files::MemFiles;
pub use mem_sink::MemSink;
pub use name::Name;
pub use operations::{
    bit, choice, complement, difference, equal, greatest, is_nonzero, is_width, less, less_equal,
    not_equal, resize, shift, shift_left, shift_right, sum,
};
pub use place::Place;
pub use shift_operator::ShiftOperator;
pub use sink::{Sink, SinkError};
pub use std_sink::StdSink;
pub use steps::Steps;
