//! The files in a folder and in all folders below it.
//!
//! [`walk`] goes over a folder's entries in the order of their names, by bytes. It goes into a subfolder when that
//! one's name comes: of `a.ans`, the folder `b` and `c.ans`, it visits `a.ans`, then all that is in `b`, then `c.ans`.
//! A link to a file counts as a file. A link to a folder is not followed, and is passed over like what is neither file
//! nor folder. A [`Visitor`] is handed the files that are [`Taken`], the files that are not, and what cannot be read.
//!
//! [`Folders`] says where folders come from: the system ([`SystemFolders`]), or memory in tests. `specs/Walk.antt`
//! defines what a walk finds, in which order. [`Endings`] counts files by their endings.
#![tactic(auto)]

mod endings;
mod entry;
mod folders;
mod path;
mod system;
mod taken;
mod visitor;
mod walking;

pub use endings::{Endings, MOST_ENDINGS};
pub use entry::{Entry, Kind, Unread};
pub use folders::Folders;
pub use system::SystemFolders;
pub use taken::Taken;
pub use visitor::Visitor;
pub use walking::{Ended, walk};
