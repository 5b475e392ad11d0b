//! Walks over folders in memory and of the system, and endings that are counted.

mod endings;
mod log;
mod shelf;
mod system;
mod walks;
