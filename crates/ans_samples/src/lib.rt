//! Files, contents and devices for the tests of the other crates. No program uses it.
//!
//! [`sample_file`] puts the plain record after some bytes, with fields changed where a test says so.
//! The [`records`] are files with what is expected of each, and the [`rows`] contents. A [`Narrow`]
//! device takes one byte a call and fails from then on when it is full. A [`FailingOnce`] device
//! fails at one call and works at all others; on such devices [`writes`] and [`puts`] try a writer.
//! [`start!`] writes a class of starts.
#![tactic(auto)]

mod failing_once;
mod file;
mod narrow;
pub mod records;
pub mod rows;
mod tries;

pub use ans_model::start::Start;
pub use failing_once::{FailingOnce, Failure};
pub use file::sample_file;
pub use narrow::Narrow;
pub use tries::{puts, stops_after, writes};
