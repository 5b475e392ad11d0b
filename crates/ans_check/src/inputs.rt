//! The inputs that the words can name.

ghost use Rattle.std.specs.Prelude.{IfOk, IfErr};
ghost use Rattle.std.specs.IoError.{error_kind};
ghost use Rattle.std.specs.declared.io.ErrorKind.{ErrorKind};
ghost use Rattle.clap.specs.Words.{Text};

use std::io::{self, Read};

/// Where a program's files and its standard input come from: the system, or memory in tests.
pub trait Inputs: Copy + Drop {
    /// What an input is read by.
    type Reader: Read + Drop;

    /// The reader is of the file of this name.
    ghost is_file: { Self → Text → Self.Reader → Type 0 };

    /// The reader is of standard input.
    ghost is_standard: { Self → Self.Reader → Type 0 };

    /// Opening the file of this name fails with an error of this kind.
    ghost fails: { Self → Text → ErrorKind → Type 0 };

    /// Opens the file of this name.
    fn file(self, name: &str) -> io::Result<Self::Reader>
        ensures opened { IfOk result (is_file self name.now) }
        ensures unopened { IfErr result (λ error. fails self name.now (error_kind error)) };

    /// Standard input.
    fn standard(self) -> Self::Reader
        ensures { is_standard self result };
}
