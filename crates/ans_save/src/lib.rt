//! Files are written whole or not at all.
//!
//! [`save`] writes a file beside its target, under a name of its own, and then renames it over the target. [`Saving`]
//! says where: over each input, to one file, or into a folder. [`Saves`] knows the inputs of a run and the files that
//! it has written, so that no input is lost and no file is written twice. [`fixed_name`] makes a name for a fixed file.
//! [`SaveError`] says why nothing was written.
//!
//! A [`Disk`] is the system's ([`System`]), or one in memory in tests. What is proved is what is asked of it, and in
//! which order (`specs/Deeds.antt`, `specs/Replacing.antt`, `specs/Saving.antt`), whatever it answers: a target takes
//! the new bytes by one rename, the last call of all, once each call before it succeeded; if any fails, no file got
//! another name, and the file beside the target was asked to be removed (`specs/Sparing.antt`). What the calls do is
//! not proved, since it is up to the system: that a rename replaces a name in one step, that a new file takes no
//! other's place, that bytes which are flushed are on the disk, and which answer a look gives. That [`System`] asks the
//! system for what it is asked for is only tested.
#![tactic(auto)]

mod disk;
mod names;
mod replacing;
mod save_error;
mod saves;
mod saving;
mod system;

pub use disk::{Disk, Found, Identity, Kind, Made};
pub use names::{fixed_name, name_in};
pub use save_error::{Reason, SaveError};
pub use saves::{Saves, save};
pub use saving::Saving;
pub use system::System;
