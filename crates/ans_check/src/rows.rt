//! The table of many files.

ghost use Rattle.std.specs.Prelude.{◌≡◌, ◌↔◌, ◌≤◌, false, length, option_map, IsTrue, IsErrOf, IfErr, IfOk};
ghost use Rattle.ans_model.specs.Bytes.{longest_file};
ghost use Rattle.ans_model.specs.Text.Words.{texts_of};
ghost use Rattle.ans_options.specs.declared.command.TableForm.TheVariants.{Json};
ghost use Rattle.ans_write.specs.Puts.{Puts};
ghost use Rattle.ans_write.specs.Tried.{has_failed};
ghost use Rattle.ans_table.specs.Findings.{IsFindingOf};
ghost use Rattle.ans_verdict.specs.FileNeeds.{IsNeedsOf};
ghost use Rattle.ans_check.specs.FileRows.{bytes_given};
ghost use Rattle.ans_check.specs.Rows.{IsReady, PutsText, WritesOut};
ghost use Rattle.ans_check.specs.Listing.{MayEndListing};
ghost use Rattle.ans_check.specs.Table.{IsRowFor, IsRowOf, MayEndTable, TellsRow, WritesListedTable, WritesTable};
ghost use Rattle.ans_check.specs.Table.{columns_text, digits_of, fix_of, header, names_line, row_in};
ghost use Rattle.ans_check.specs.Table.{unread_row};

use crate::errors::RunError;
use crate::file_rows::{FileRows, tell_rows};
use crate::further::{Digits, digits_in, fix_in};
use crate::inputs::Inputs;
use crate::listing::{Listed, tell_listed};
use ans_options::{TableChoice, TableForm};
use ans_report::{Needs, Tried, WriteFault};
use ans_sauce::Judged;
use ans_table::{
    Counts, FaultFinding, Finding, Outcome, PassFinding, RecordFinding, RowFinding, Unread,
    json_row, put_header, put_line, put_pictured_header, put_pictured_row, put_row,
};
use ans_verdict::{KeptScreens, needs_on};
use ans_write::Outbox;
use std::alloc::{AllocError, Global};
use std::io::Write;

/// What a row says of a file, by what it needs.
fn finding_by<'a>(file: &'a [u8], found: Needs<'a>) -> Finding<'a>
    requires length { length file.now ≤ longest_file }
    requires needs { IsNeedsOf file.now found }
    ensures { IsFindingOf file.now result }
{
    match found {
        Judged::NoContent(fault) => Judged::NoContent(RecordFinding::of(file, fault)),
        Judged::Refused(parts, fault) => {
            let said = FaultFinding::of(&parts, fault);
            Judged::Refused(parts, said)
        }
        Judged::Passes(parts, class) => {
            let said = PassFinding::of(&parts, class);
            Judged::Passes(parts, said)
        }
    }
}

/// What a row says of a file: what is found of it, the flags that mend it, and the digits of its picture's checksum.
#[derive(Drop)]
pub(crate) struct Row<'a> {
    finding: RowFinding<'a>,
    fix: Option<Vec<u8>>,
    digits: Option<Digits>,
}

impl Row<'_> {
    /// Of a file that was not read.
    fn unread(why: Unread) -> Row<'static>
        ensures { result ≡ unread_row why }
    {
        Row {
            finding: Err(why),
            fix: None,
            digits: None,
        }
    }

    fn fix(&self) -> Option<&[u8]>
        ensures { option_map (λ text. text.now) result ≡ fix_of self.now }
    {
        match &self.fix {
            Some(flags) => Some(flags.as_slice()),
            None => None,
        }
    }

    fn digits(&self) -> Option<&[u8]>
        ensures { option_map (λ text. text.now) result ≡ digits_of self.now }
    {
        match &self.digits {
            Some(digits) => Some(digits.as_slice()),
            None => None,
        }
    }
}

/// What the row of a file says.
fn row_by<'a>(
    alloc: Global,
    choice: &TableChoice,
    screens: &mut KeptScreens,
    file: &'a [u8],
) -> Result<Row<'a>, AllocError>
    requires { length file.now ≤ longest_file }
    ensures { IfOk result (IsRowOf choice.now file.now) }
{
    let found = needs_on(screens, file)?;
    let finding = finding_by(file, found);
    let fix = fix_in(alloc, choice.form, screens, file, &finding)?;
    let digits = digits_in(alloc, choice.pictures, file)?;
    Ok(Row {
        finding: Ok(finding),
        fix,
        digits,
    })
}

/// What the row of a file says, of which this was read.
fn row_for<'a>(
    alloc: Global,
    choice: &TableChoice,
    screens: &mut KeptScreens,
    given: Result<&'a [u8], Unread>,
) -> Row<'a>
    requires { IfOk (bytes_given given) (λ file. length file ≤ longest_file) }
    ensures { IsRowFor choice.now (bytes_given given.entry) result }
{
    let file = match given {
        Ok(file) => file,
        Err(why) => return Row::unread(why),
    };
    match row_by(alloc, choice, screens, file) {
        Ok(row) => row,
        Err(AllocError) => Row::unread(Unread::Memory),
    }
}

/// Puts a row of columns, with a last one for the checksum if that is asked for.
fn put_columns<W: Write>(out: &mut Outbox<'_, W>, pictures: bool, name: &[u8], row: &Row<'_>)
    ensures { Puts W.contents out.old out.new (columns_text pictures name.now row.now) }
{
    if pictures {
        put_pictured_row(out, name, &row.finding, row.digits());
    } else {
        put_row(out, name, &row.finding);
    }
}

/// Puts a row in the form. Without memory for the text of a JSON object nothing is put.
fn put_row_in<W: Write>(
    alloc: Global,
    choice: &TableChoice,
    out: &mut Outbox<'_, W>,
    name: &[u8],
    row: &Row<'_>,
) -> Result<(), AllocError>
    ensures { PutsText W.contents (choice.now.form ≡ Json) (row_in choice.now.form choice.now.pictures name.now row.now)
        out.old out.new result }
{
    match choice.form {
        TableForm::Headed | TableForm::Bare => put_columns(out, choice.pictures, name, row),
        TableForm::Json => {
            let text = json_row(alloc, name, &row.finding, row.fix(), row.digits())?;
            put_line(out, text.as_bytes());
        }
    }
    Ok(())
}

impl FileRows for TableChoice {
    ghost tells = { TellsRow };

    ghost may_lack = { λ choice. choice.form ≡ Json };

    fn put<W: Write>(
        &self,
        alloc: Global,
        screens: &mut KeptScreens,
        out: &mut Outbox<'_, W>,
        name: &[u8],
        given: Result<&[u8], Unread>,
    ) -> Result<Outcome, AllocError> {
        let row = row_for(alloc, self, screens, given);
        put_row_in(alloc, self, out, name, &row)?;
        Ok(Outcome::of(&row.finding))
    }
}

/// Puts the line of the columns' names, with that of the checksums if they are asked for.
fn put_names<W: Write>(out: &mut Outbox<'_, W>, pictures: bool)
    ensures { Puts W.contents out.old out.new (names_line pictures) }
{
    if pictures {
        put_pictured_header(out);
    } else {
        put_header(out);
    }
}

/// Puts the line of the columns' names, if the form asks for it.
fn put_header_in<W: Write>(choice: &TableChoice, out: &mut Outbox<'_, W>)
    ensures { Puts W.contents out.old out.new (header choice.now.form choice.now.pictures) }
{
    match choice.form {
        TableForm::Headed => put_names(out, choice.pictures),
        TableForm::Bare => {}
        TableForm::Json => {}
    }
}

/// Writes that line.
fn tell_header<W: Write>(choice: &TableChoice, out: &mut Outbox<'_, W>) -> Result<(), RunError>
    requires { IsReady out.old }
    ensures { WritesOut W.contents (MayEndTable choice.now) (header choice.now.form choice.now.pictures)
        out.old out.new result }
{
    put_header_in(choice, out);
    match out.finish() {
        Ok(()) => Ok(()),
        Err(WriteFault) => Err(RunError::Write),
    }
}

/// Writes the table of the files of these names: the line of the columns' names if the form asks for
/// it, and then a row for each name, in their order and in the form. With `pictures` a row ends with the checksum of the
/// picture that the file shows from the cleared start. A JSON object has the flags that mend the file. A
/// row is written, and the writer is asked to hand it on, before the next file is opened. A file that cannot be opened
/// or read, or that is too long, has a row too, and so has one for which memory runs out. Returns how many files came
/// out how.
///
/// At `Err` a prefix of the table was written. `Err(Write)` comes exactly if the device failed in the
/// call, and `Err(Memory)` if memory for the text of a JSON row ran out; no other error comes.
pub fn table<I: Inputs, W: Write>(
    alloc: Global,
    inputs: I,
    names: &[&[u8]],
    choice: &TableChoice,
    output: &mut Tried<W>,
) -> Result<Counts, RunError>
    requires { has_failed output.old ≡ false }
    ensures device { IsErrOf result RunError.Write ↔ IsTrue (has_failed output.new) }
    ensures errors { IfErr result (MayEndTable choice.now) }
    ensures table { WritesTable W.contents I.Reader.remaining (I.is_file inputs) (I.fails inputs)
        choice.now (texts_of names.now) output.old output.new result }
{
    let mut out = Outbox::new(output);
    tell_header(choice, &mut out)?;
    tell_rows(alloc, choice, inputs, names, &mut out)
}

/// Writes the same table of the files whose names an input gives, each ended by the byte 00h. The row of a name is
/// written before more of the input is waited for, and no more than one name is kept in memory. Returns how many files
/// came out how, and whether the input was read to its end.
///
/// At `Err` a prefix of the table was written. `Err(Write)` comes exactly if the device failed in the call, and
/// `Err(Memory)` if memory ran out for a name or for the text of a JSON row; no other error comes.
pub(crate) fn table_listed<I: Inputs, W: Write>(
    alloc: Global,
    inputs: I,
    reader: &mut Tried<I::Reader>,
    choice: &TableChoice,
    output: &mut Tried<W>,
) -> Result<Listed, RunError>
    requires works { has_failed reader.old ≡ false }
    requires writes { has_failed output.old ≡ false }
    ensures device { IsErrOf result RunError.Write ↔ IsTrue (has_failed output.new) }
    ensures errors { IfErr result MayEndListing }
    ensures table { WritesListedTable W.contents I.Reader.remaining (I.is_file inputs) (I.fails inputs)
        choice.now reader.old reader.new output.old output.new result }
{
    let mut out = Outbox::new(output);
    tell_header(choice, &mut out)?;
    tell_listed(alloc, choice, inputs, reader, &mut out)
}
