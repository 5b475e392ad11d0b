//! The command line, and what its words ask for.
//!
//! [`asked`] has `clap` read what the words mean, and returns what they ask for: the [`Options`] and the
//! name of one file, the names of the files of `why`, the [`TableChoice`] and the names of its files, or what files are
//! to be mended or redrawn, by which [`MendChoice`], and how they are written, a [`Writing`]; or a [`WordsError`].
//! Words that `clap` takes and that contradict themselves make a [`Mistake`], the first in a fixed order.
//! Before that it sees whether they ask for help on a [`Topic`], a fault, a note or a word by its name, which
//! `clap` knows nothing of. A first word that is no command is a file's name, and `why` is put before it
//! (`words_asked`); [`command_named`] is the command of a name, and [`near_command`] the one that may have been meant.
//! [`options`] gives only the options with the one name, and reads the words as they are. Which words ask for
//! what is in `specs/CommandLine.antt`, the topics in `specs/Topics.antt`; there `help` means `--help`, and
//! `help COMMAND` means `COMMAND --help`. Laws of it are in `ans_check_laws`.
//!
//! Except for want of memory the answer is a function of the words: there are options exactly if the
//! words have no fault (`faults_of`), and an error has one of the kinds that their first fault may
//! have. A request, for help or for the version, is either the whole of that fault or no part of it,
//! by a law. So the words by themselves decide whether help or the version is shown, or a mistake.
#![tactic(auto)]

mod command;
mod command_line;
mod mistakes;
mod topic;
mod words;

pub use ans_model::mends::Mends;
pub use command::{
    Asked, Command, Form, MendChoice, Options, TableChoice, TableForm, Target, Writing,
};
pub use command_line::{WordsError, asked, command_named, near_command, options};
pub use mistakes::Mistake;
pub use topic::{HelpWord, Topic, WordTable, explains};
