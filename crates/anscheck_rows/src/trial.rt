//! A row tried.

use crate::disk::Drive;
use crate::file::put_drawing;
use crate::shelf::{Shelf, Stored};
use crate::table::{File, Row, Table};
use ans_check::answer;
use ans_report::Tried;
use std::alloc::{AllocError, Global};
use std::io::{self, Write};

/// A device that keeps what it is given.
#[derive(Drop)]
struct Kept {
    bytes: Vec<u8>,
}

impl Write for Kept {
    fn write(&mut self, buf: &[u8]) -> io::Result<usize> {
        self.bytes.extend_from_slice(buf)?;
        Ok(buf.len())
    }

    fn flush(&mut self) -> io::Result<()> {
        Ok(())
    }
}

/// What came of a row, or what is to come: what is on standard output and on standard error, and the status.
#[derive(Drop)]
struct Answered {
    output: Vec<u8>,
    errors: Vec<u8>,
    status: u8,
}

/// How much of a text is expected.
#[derive(Clone, Copy)]
enum Extent {
    Whole,
    Front,
}

impl Extent {
    fn of(goes_on: bool) -> Extent {
        if goes_on {
            Extent::Front
        } else {
            Extent::Whole
        }
    }

    /// Whether a text is what was expected, or begins so.
    fn agree(self, came: &[u8], expected: &[u8]) -> bool {
        match self {
            Extent::Whole => came == expected,
            Extent::Front => came.starts_with(expected),
        }
    }
}

/// A row tried.
#[derive(Drop)]
pub(crate) struct Trial {
    came: Answered,
    expected: Answered,
    prints: Extent,
    says: Extent,
    /// What is printed last.
    last: Vec<u8>,
    /// Whether the disk has what it is to have.
    disk_agrees: bool,
}

/// The disk that the files of a table are on.
fn drive_of(alloc: Global, files: &[(&str, Stored)]) -> Result<Drive, AllocError> {
    let mut drive = Drive::new(alloc);
    for (name, stored) in files {
        drive.put(name, stored.bytes.as_slice())?;
    }
    Ok(drive)
}

/// Whether these files were written, and no others.
fn leaves(alloc: Global, drive: &Drive, row: &Row) -> Result<bool, AllocError> {
    for (name, file) in &row.leaves {
        let bytes = file.bytes(alloc)?;
        if drive.bytes_written(name.as_str()) != Some(bytes.as_slice()) {
            return Ok(false);
        }
    }
    Ok(drive.written() == row.leaves.len())
}

/// A file of a table in memory.
fn stored(alloc: Global, file: &File) -> Result<Stored, AllocError> {
    Ok(Stored {
        bytes: file.bytes(alloc)?,
        torn: file.torn,
    })
}

/// Standard input of a row.
fn standard_input(alloc: Global, row: &Row) -> Result<Stored, AllocError> {
    if let Some(file) = &row.input {
        return stored(alloc, file);
    }
    let mut bytes = Vec::new(alloc);
    if let Some(drawing) = &row.drawing {
        put_drawing(alloc, &mut bytes, drawing)?;
    }
    Ok(Stored { bytes, torn: false })
}

/// The files that a row can name.
fn shelf_of(alloc: Global, table: &Table) -> Result<Vec<(&str, Stored)>, AllocError> {
    let mut files = Vec::new(alloc);
    for (name, file) in &table.files {
        files.push((name.as_str(), stored(alloc, file)?))?;
    }
    Ok(files)
}

/// Words, after the program's name.
fn words_of(alloc: Global, own: &[String]) -> Result<Vec<&str>, AllocError> {
    let mut words = Vec::new(alloc);
    words.push("anscheck")?;
    for word in own {
        words.push(word.as_str())?;
    }
    Ok(words)
}

/// What is to come of a row.
fn expected(alloc: Global, row: &Row) -> Result<Answered, AllocError> {
    let output = match &row.writes {
        Some(file) => file.bytes(alloc)?,
        None => row.prints.as_bytes().to_vec(alloc)?,
    };
    Ok(Answered {
        output,
        errors: row.says.as_bytes().to_vec(alloc)?,
        status: row.status,
    })
}

impl Trial {
    /// Answers words of a row of a table over its files.
    pub(crate) fn of(
        alloc: Global,
        table: &Table,
        row: &Row,
        words: &[String],
    ) -> Result<Trial, AllocError> {
        let files = shelf_of(alloc, table)?;
        let standard = standard_input(alloc, row)?;
        let words = words_of(alloc, words)?;
        let shelf = Shelf {
            files: files.as_slice(),
            standard: &standard,
        };
        let mut drive = drive_of(alloc, files.as_slice())?;
        let mut output = Tried::new(Kept {
            bytes: Vec::new(alloc),
        });
        let mut errors = Tried::new(Kept {
            bytes: Vec::new(alloc),
        });
        let ending = answer(
            alloc,
            words.as_slice(),
            shelf,
            &mut drive,
            row.terminal,
            &mut output,
            &mut errors,
        );
        Ok(Trial {
            came: Answered {
                output: output.into_inner().bytes,
                errors: errors.into_inner().bytes,
                status: ending.status(),
            },
            expected: expected(alloc, row)?,
            prints: Extent::of(row.prints_more),
            says: Extent::of(row.says_more),
            last: row.prints_last.as_bytes().to_vec(alloc)?,
            disk_agrees: leaves(alloc, &drive, row)?,
        })
    }

    /// Whether what came is what was to come.
    pub(crate) fn is_as_expected(&self) -> bool {
        let (came, expected) = (&self.came, &self.expected);
        self.prints
            .agree(came.output.as_slice(), expected.output.as_slice())
            && self
                .says
                .agree(came.errors.as_slice(), expected.errors.as_slice())
            && came.output.as_slice().ends_with(self.last.as_slice())
            && came.status == expected.status
            && self.disk_agrees
    }

    /// Writes which row came out otherwise, and what came.
    pub(crate) fn tell<W: Write>(&self, out: &mut W, name: &str, number: usize) -> io::Result<()> {
        let status = self.came.status;
        writeln!(
            out,
            "{name}: row {number} from 0 comes out otherwise: status {status}"
        )?;
        if !self.disk_agrees {
            writeln!(out, "the disk has other files")?;
        }
        out.write_all(self.came.output.as_slice())?;
        out.write_all(self.came.errors.as_slice())
    }
}
