//! Names by example, files that are saved on a disk in memory, of which each call fails in turn, and on the system.
mod names;
mod saves;
mod shelf;
mod system;
