//! `anscheck_rows`: what `anscheck` answers, row by row.
//!
//! Each word names a table of rows: files, words, and what is to come of them (`table`). They are tried over files in
//! memory. Of each table it prints how many rows there are, and which of them come out otherwise. The exit status is 0
//! if none does, 1 if one does or a table is not TOML, and 2 if a table cannot be read or memory runs out.
#![tactic(auto)]

mod bytes;
mod disk;
mod file;
mod shelf;
mod table;
mod trial;

use crate::table::{Row, Table};
use crate::trial::Trial;
use std::io::{self, Write};
use std::process::ExitCode;
use std::{env, fs};

/// Tries words of a row. Answers whether they came out as they are to.
fn try_words(
    rt: &HostRuntime,
    table: &Table,
    row: &Row,
    words: &[String],
    place: (&str, usize),
) -> io::Result<bool> {
    let trial = Trial::of(rt.alloc(), table, row, words)?;
    let agrees = trial.is_as_expected();
    if !agrees {
        trial.tell(&mut rt.stdout(), place.0, place.1)?;
    }
    Ok(agrees)
}

/// Tries all words of a row. Answers whether all came out as they are to.
fn try_row(rt: &HostRuntime, table: &Table, row: &Row, place: (&str, usize)) -> io::Result<bool> {
    let first = match &row.words {
        Some(own) => own,
        None => &table.words,
    };
    let mut agrees = try_words(rt, table, row, first.as_slice(), place)?;
    for words in &row.also {
        agrees &= try_words(rt, table, row, words.as_slice(), place)?;
    }
    Ok(agrees)
}

/// Tries the rows of a table. Answers how many came out otherwise.
fn try_table(rt: &HostRuntime, name: &str) -> io::Result<usize> {
    let text = fs::read_to_string(rt, name)?;
    let mut out = rt.stdout();
    let table: Table = match toml::from_str(rt.alloc(), text.as_str()) {
        Ok(table) => table,
        Err(error) => {
            writeln!(out, "{name}: {error}")?;
            return Ok(1);
        }
    };
    let mut differ = 0usize;
    for (number, row) in table.row.iter().enumerate() {
        if !try_row(rt, &table, row, (name, number))? {
            differ = differ.saturating_add(1);
        }
    }
    writeln!(out, "{name}: {} rows, {differ} otherwise", table.row.len())?;
    Ok(differ)
}

/// Tries the tables that the words name.
fn try_tables(rt: &HostRuntime) -> io::Result<usize> {
    let mut differ = 0usize;
    for name in env::args(rt)?.skip(1) {
        differ = differ.saturating_add(try_table(rt, name.as_str())?);
    }
    Ok(differ)
}

fn main(rt: HostRuntime) -> ExitCode {
    match try_tables(&rt) {
        Ok(0) => ExitCode::SUCCESS,
        Ok(_) => ExitCode::from(1),
        Err(_) => ExitCode::from(2),
    }
}
