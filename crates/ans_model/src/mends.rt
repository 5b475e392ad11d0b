//! What is asked for of a file that is mended.

ghost use Rattle.std.specs.Prelude.{◌≡◌, map};
ghost use Rattle.ans_model.specs.MendFlags.{mend_flags, row_of_flag, with_step};

/// What may be asked for of a file that is mended, besides what is mended by itself.
#[derive(Debug, Clone, Copy, PartialEq, Eq)]
pub struct Mends {
    /// The width of the record that is added to a file without one, in columns: 1 to 1024. Its lines are
    /// those of `lines`, or without that number the least with which the drawing passes.
    pub add_record: Option<u16>,
    /// The width that the record is to state, in columns: 1 to 1024.
    pub columns: Option<u16>,
    /// Whether a return is added before each line feed of a drawing that has no return.
    pub crlf: bool,
    /// Whether sequences that are refused are removed: screen modes, font selections, music, 24-bit colours, reports
    /// that are asked for, reassigned keys, and an unfinished one at the end. And as few line ends, bytes 00h and
    /// sequences that print nothing are removed at the very end as must go, if at most 8 sequences are enough.
    pub take_out: bool,
    /// Whether the line ends after full rows are removed, if each full row has one.
    pub join_rows: bool,
    /// Whether `crlf` and `join_rows` also change a drawing in which only some line feeds have no return, or
    /// only some full rows have a line end: those that need it.
    pub mixed: bool,
    /// Whether colour sequences with a 0 or an omitted number name the foreground and the background after
    /// it, 37 and 40, if something is printed or cleared in a player's own colours.
    pub name_colours: bool,
    /// Whether the record's flag for bright backgrounds is set.
    pub ice: bool,
    /// Whether the number of comments that the record counts is set to those that are there, if only one number
    /// is possible, and an older record is removed if it comes directly after the first end mark and nothing but its
    /// tail comes between it and the record.
    pub repair_record: bool,
    /// Whether the least number of lines with which the drawing passes is stated, if those that the
    /// record states are too few, or none are. A number in `lines` is stated instead.
    pub least_lines: bool,
    /// The number of lines to be stated if those that the record states are too few, or none are: 1 to
    /// 8192.
    pub lines: Option<u16>,
}

impl Mends {
    /// Nothing but what is mended by itself.
    pub const NONE: Mends = Mends {
        add_record: None,
        columns: None,
        crlf: false,
        take_out: false,
        join_rows: false,
        mixed: false,
        name_colours: false,
        ice: false,
        repair_record: false,
        least_lines: false,
        lines: None,
    };

    /// The same, with this step asked for or not.
    pub fn with(self, step: MendStep, asked: bool) -> Mends
        ensures { result ≡ with_step step asked self }
    {
        match step {
            MendStep::TakeOut => Mends {
                take_out: asked,
                ..self
            },
            MendStep::Crlf => Mends {
                crlf: asked,
                ..self
            },
            MendStep::JoinRows => Mends {
                join_rows: asked,
                ..self
            },
            MendStep::Mixed => Mends {
                mixed: asked,
                ..self
            },
            MendStep::NameColours => Mends {
                name_colours: asked,
                ..self
            },
            MendStep::Ice => Mends { ice: asked, ..self },
            MendStep::RepairRecord => Mends {
                repair_record: asked,
                ..self
            },
            MendStep::LeastLines => Mends {
                least_lines: asked,
                ..self
            },
        }
    }
}

/// A step of mending that a flag without a value asks for: a field of [`Mends`] each.
#[derive(Debug, Clone, Copy, PartialEq, Eq)]
pub enum MendStep {
    TakeOut,
    Crlf,
    JoinRows,
    Mixed,
    NameColours,
    Ice,
    RepairRecord,
    LeastLines,
}

/// How a step is asked for.
#[derive(Debug, Clone, Copy)]
pub struct MendFlag {
    pub step: MendStep,
    /// The flag's name, without `--`.
    pub name: &'static str,
    /// The bit that stands for it in a number.
    pub bit: u32,
    /// What it does, as help says it.
    pub help: &'static str,
}

const MEND_FLAGS: [MendFlag; 8] = [
    MendFlag {
        step: MendStep::TakeOut,
        name: "take-out",
        bit: 1,
        help: "Remove refused sequences, such as screen modes",
    },
    MendFlag {
        step: MendStep::Crlf,
        name: "crlf",
        bit: 2,
        help: "Turn line feeds into CR LF, if the drawing has no CR",
    },
    MendFlag {
        step: MendStep::JoinRows,
        name: "join-rows",
        bit: 4,
        help: "Remove line ends after full rows, if each has one",
    },
    MendFlag {
        step: MendStep::Mixed,
        name: "mixed",
        bit: 32,
        help: "With --crlf or --join-rows: if only some need it",
    },
    MendFlag {
        step: MendStep::NameColours,
        name: "name-colours",
        bit: 16,
        help: "Add 37 and 40 after a 0 that something is printed in",
    },
    MendFlag {
        step: MendStep::Ice,
        name: "ice",
        bit: 64,
        help: "Set the flag for bright backgrounds",
    },
    MendFlag {
        step: MendStep::RepairRecord,
        name: "record",
        bit: 128,
        help: "Repair the comment count, and remove an older record",
    },
    MendFlag {
        step: MendStep::LeastLines,
        name: "least-lines",
        bit: 8,
        help: "Set the smallest number of lines that works",
    },
];

/// The flags, in the order of the help.
pub fn mend_flags() -> &'static [MendFlag]
    ensures { map row_of_flag result.now ≡ mend_flags }
{
    &MEND_FLAGS
}
