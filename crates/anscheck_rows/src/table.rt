//! Tables of rows, as they are written in TOML.
//!
//! In bytes a character is the byte of its number, as `\u001b` for ESC.

use serde::Deserialize;
use std::collections::BTreeMap;

/// A table of rows.
#[derive(Drop, Deserialize)]
#[serde(deny_unknown_fields)]
pub(crate) struct Table {
    /// The files that each row can name.
    #[serde(default)]
    pub files: BTreeMap<String, File>,
    /// The words of the rows that have none of their own.
    #[serde(default)]
    pub words: Vec<String>,
    pub row: Vec<Row>,
}

/// A file: its parts, one after the other, in the order below. A part that is left out is empty.
#[derive(Drop, Deserialize)]
#[serde(deny_unknown_fields)]
pub(crate) struct File {
    /// Texts, each with how often it comes.
    #[serde(default)]
    pub times: Vec<(usize, String)>,
    /// A text.
    #[serde(default)]
    pub front: String,
    /// A content, and its record's columns and lines: the content, an end mark, and the plain record of
    /// this size, which states the content's length.
    pub drawing: Option<(String, u16, u16)>,
    /// The plain record with these bytes at these offsets, which count from its first byte.
    pub record: Option<Vec<(usize, String)>>,
    /// A text after the record.
    #[serde(default)]
    pub after: String,
    /// Whether reading fails after these bytes.
    #[serde(default)]
    pub torn: bool,
}

/// A row.
#[derive(Drop, Deserialize)]
#[serde(deny_unknown_fields)]
pub(crate) struct Row {
    /// The words after the program's name.
    pub words: Option<Vec<String>>,
    /// Other words that come to the same.
    #[serde(default)]
    pub also: Vec<Vec<String>>,
    /// Standard input.
    pub input: Option<File>,
    /// Standard input, if it is only a drawing.
    pub drawing: Option<(String, u16, u16)>,
    /// The text that is printed.
    #[serde(default)]
    pub prints: String,
    /// The file that is written, where it is no text.
    pub writes: Option<File>,
    /// Whether what is printed goes on after that.
    #[serde(default)]
    pub prints_more: bool,
    /// The text with which what is printed ends.
    #[serde(default)]
    pub prints_last: String,
    /// The files that are written to the disk, and their names.
    #[serde(default)]
    pub leaves: BTreeMap<String, File>,
    /// Whether standard output is a terminal.
    #[serde(default)]
    pub terminal: bool,
    /// The text on standard error.
    #[serde(default)]
    pub says: String,
    /// Whether the text on standard error goes on after that.
    #[serde(default)]
    pub says_more: bool,
    #[serde(default)]
    pub status: u8,
}
