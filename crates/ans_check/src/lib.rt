//! The checker from bytes to bytes, and how the program ends.
//!
//! [`run`] reads a file and writes what a command reports of it, and [`serve`] also has the writer hand on
//! what it holds back. [`mend`] reads a file and writes it mended, [`redraw`] reads one and writes it redrawn.
//! [`table`] reads many files and writes a row for each. [`answer`] goes from the program's words, over the
//! [`Inputs`] that they can name and the [`Disk`] that files are written to, to the [`Ending`]: its exit status and
//! what it says. [`program`] is that on the system's own words, files, disk and streams. The verdict on a file,
//! [`check`], what it [`needs`] and why, is found by `ans_verdict`, a file is mended by `ans_mend` and written by
//! `ans_save`, and the command line is read by `ans_options`; their public names are passed on.
//!
//! What each command writes is in `specs/CommandText.antt` and `specs/WhyTold.antt`, what a run has done
//! when it returns in `specs/Served.antt`, by which flags a file is mended by its own findings in
//! `specs/Suggesting.antt`, what a redrawn file is in `specs/Redrawing.antt`, what a table has
//! in `specs/Table.antt`, what becomes of files that are written in `specs/Fates.antt`, how words are answered in
//! `specs/Answer.antt`, what is said of it in `specs/Said.antt`, and the endings in `specs/Ending.antt`.
#![tactic(auto)]

mod answering;
mod check_file;
mod errors;
mod exit_status;
mod fates;
mod file_rows;
mod filing;
mod further;
mod inputs;
mod last_words;
mod listing;
mod mend_file;
mod naming;
mod pipeline;
mod reading;
mod redraw_file;
mod rows;
mod streams;
mod suggesting;
mod system;
mod task;
mod why_rows;
mod why_told;

pub use ans_fix::Unhelped;
pub use ans_kinds::{KindsUsed, Players};
pub use ans_mend::{MendError, Mended, Unmended, mend_on};
pub use ans_model::start::Start;
pub use ans_options::{
    Asked, Command, Form, MendChoice, Mends, Mistake, Options, TableChoice, TableForm, Target,
    Topic, WordsError, Writing, asked, options,
};
pub use ans_redraw::{Redrawn, Unredrawn};
pub use ans_report::Needs;
pub use ans_sauce::Judged;
pub use ans_save::{Disk, Found, Identity, Kind, Made, SaveError};
pub use ans_table::{
    Counts, FaultFinding, Finding, Outcome, PassFinding, RecordFinding, RowFinding, Unopened,
    Unread,
};
pub use ans_verdict::{
    LentScreens, NewScreens, Screens, Verdict, check, needs, needs_on, play_on, why_on,
};
pub use ans_written::{FileCounts, FileOutcome};
pub use answering::answer;
pub use errors::RunError;
pub use exit_status::{Ending, status};
pub use inputs::Inputs;
pub use naming::{Meant, Naming};
pub use pipeline::run;
pub use rows::table;
pub use streams::{mend, redraw, serve};
pub use system::program;
