//! What the program is asked to do.

ghost use Rattle.std.specs.Prelude.{◌≡◌};
ghost use Rattle.ans_options.specs.CommandLine.{command_name, plain_options};

use crate::mistakes::Mistake;
use crate::topic::Topic;
use ans_model::mends::Mends;
use ans_model::start::Start;

/// The form in which a picture is shown.
#[derive(Debug, Clone, Copy, PartialEq, Eq)]
pub enum Form {
    /// Text for a terminal, in the terminal's own colours.
    Terminal,
    /// Text for a terminal, in the sixteen colours of a VGA.
    Vga,
    /// A page, an HTML document.
    Page,
}

/// The form of a table.
#[derive(Debug, Clone, Copy, PartialEq, Eq)]
pub enum TableForm {
    /// Rows of columns, under a line of the columns' names.
    Headed,
    /// Rows of columns, without that line.
    Bare,
    /// A JSON object a line.
    Json,
}

/// What a table is asked to be.
#[derive(Debug, Clone, Copy, PartialEq, Eq)]
pub struct TableChoice {
    pub form: TableForm,
    /// Whether its last column has a checksum of each file's picture.
    pub pictures: bool,
}

impl TableChoice {
    /// The table that is written without flags.
    pub const HEADED: TableChoice = TableChoice {
        form: TableForm::Headed,
        pictures: false,
    };
}

/// What is to be changed of a file that is mended.
#[derive(Debug, Clone, Copy, PartialEq, Eq)]
pub enum MendChoice {
    /// What the flags name.
    Flags(Mends),
    /// What the findings of the drawing call for.
    Suggested,
}

/// Where files go that are mended or redrawn.
#[derive(Debug, Drop)]
pub enum Target {
    /// To standard output.
    Output,
    /// Each over its input.
    InPlace,
    /// To the file of this name; or, if it ends in a slash, into the folder of this name, each under its own.
    Path(String),
}

/// How files are written that are mended or redrawn.
#[derive(Debug, Drop)]
pub struct Writing {
    pub target: Target,
    /// Whether nothing is written, and it is only said what would be.
    pub is_dry: bool,
}

/// What the program does with a file, or with many.
#[derive(Debug, Clone, Copy, PartialEq, Eq)]
pub enum Command {
    /// Writes what is wrong with it, what it relies on, and how to fix it.
    Why,
    /// Checks it, and writes the report.
    Check,
    /// Checks it, and writes its picture in colour, or the report of its refusal.
    Show(Form),
    /// Writes what its record says, or why the file is refused for its record or its layout.
    Sauce,
    /// Writes the tokens of its content, or why the file is refused for its record or its layout.
    Tokens,
    /// Writes which parts of the start its content needs to be known, or why the file is refused.
    Needs,
    /// Writes a row for each of many files: the verdict, what it needs, its fault, and its record.
    Table(TableChoice),
    /// Writes the file mended, so that it passes from every start.
    Mend(MendChoice),
    /// Writes the file redrawn: its picture written again in the plainest form, which shows it from every start.
    Redraw,
}

impl Command {
    /// The command's name, as it is typed.
    pub fn name(&self) -> &'static str
        ensures { result.now ≡ command_name self.now }
    {
        match self {
            Command::Why => "why",
            Command::Check => "check",
            Command::Show(_) => "show",
            Command::Sauce => "sauce",
            Command::Tokens => "tokens",
            Command::Needs => "needs",
            Command::Table(_) => "table",
            Command::Mend(_) => "mend",
            Command::Redraw => "redraw",
        }
    }
}

/// What the command line asks for.
#[derive(Debug, Clone, Copy, PartialEq, Eq)]
pub struct Options {
    pub command: Command,
    /// What is known of the state that the content finds. Only `Check` and `Show` read it.
    pub start: Start,
    /// Whether the report of a pass also has each cell. Only `Check` reads it.
    pub cells: bool,
}

impl Options {
    /// Those of `why`. It reads neither what is known of the start nor whether cells are reported.
    pub const WHY: Options = Options {
        command: Command::Why,
        start: Start::ANY,
        cells: false,
    };

    /// Those of a command that reads neither what is known of the start nor whether cells are reported.
    pub(crate) fn plain(command: Command) -> Options
        ensures { result ≡ plain_options command }
    {
        Options {
            command,
            start: Start::ANY,
            cells: false,
        }
    }
}

/// What the words ask for.
#[derive(Debug, Drop)]
pub enum Asked {
    /// One command, and the name of its input as it is given, `-` too.
    One(Options, Option<String>),
    /// What is wrong with files, and their names as they are given, `-` too, in their order. Without a name it is
    /// standard input.
    Why(Vec<String>),
    /// A table, and the names of its files as they are given, in their order.
    Table(TableChoice, Vec<String>),
    /// Files mended, how they are written, and their names as they are given, `-` too, in their order. Without a name
    /// it is standard input.
    Mend(MendChoice, Writing, Vec<String>),
    /// Files redrawn, how they are written, and their names, as those of files that are mended.
    Redraw(Writing, Vec<String>),
    /// A command, `mend` or `redraw`, by words that contradict themselves.
    Mistaken(Command, Mistake),
    /// What a fault, a note or a word means.
    Meaning(Topic),
}
