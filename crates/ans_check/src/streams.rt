//! From an input to an output that may hold text back.

ghost use Rattle.std.specs.Prelude.{◌≡◌, false};
ghost use Rattle.ans_write.specs.Tried.{has_failed};
ghost use Rattle.ans_redraw.specs.Redrawing.{TellsRedrawn};
ghost use Rattle.ans_check.specs.Served.{Serves, ServesAs};
ghost use Rattle.ans_fix.specs.Trials.{TellsFixed};

use crate::errors::RunError;
use crate::redraw_file::Redrawing;
use crate::task::serve_task;
use ans_fix::Unhelped;
use ans_mend::Mended;
use ans_options::{Mends, Options};
use ans_redraw::{Redrawn, Unredrawn};
use ans_report::Tried;
use std::alloc::Global;
use std::io::{Read, Write};

/// Runs on an input as [`run`] does, and once the text is written has the writer hand on what it
/// holds back of it. What is promised of a run is promised of this too; `Write` also comes where
/// the writer cannot hand the text on. That it is asked to is only tested, since a writer's contract
/// does not say what a flush is for.
pub fn serve<R: Read, W: Write>(
    alloc: Global,
    reader: &mut Tried<R>,
    writer: &mut Tried<W>,
    options: &Options,
) -> Result<bool, RunError>
    requires reads { has_failed reader.old ≡ false }
    requires writes { has_failed writer.old ≡ false }
    ensures { Serves R.remaining W.contents options.now reader.old reader.new writer.old writer.new result }
{
    serve_task(alloc, reader, writer, options)
}

/// Reads the whole input, mends it, and writes the mended file, of which the writer then hands on what it
/// holds back. The file is judged whole before its first byte is written: it passes from every start, with
/// the picture that its remaining content has from the cleared one. `Ok` says what was changed of it, in
/// the order in which it was; or why it is not mended and which
/// flags would not help it, and then nothing is written.
///
/// `Read` comes exactly where the reader failed in the call, `Write` exactly where the writer did, and
/// `TooLong` as soon as more than 16,777,216 bytes were read. `Memory` comes where memory runs out for the
/// file, for what is put into it, or for its screen. After `Write` a prefix of the mended file was written,
/// and after any other error nothing. It makes at most 16,777,218 reads.
pub fn mend<R: Read, W: Write>(
    alloc: Global,
    reader: &mut Tried<R>,
    writer: &mut Tried<W>,
    mends: &Mends,
) -> Result<Result<Mended, Unhelped>, RunError>
    requires reads { has_failed reader.old ≡ false }
    requires writes { has_failed writer.old ≡ false }
    ensures { ServesAs R.remaining W.contents (TellsFixed mends.now) reader.old reader.new writer.old writer.new
        result }
{
    serve_task(alloc, reader, writer, mends)
}

/// Reads the whole input, redraws it, and writes the redrawn file, of which the writer then hands on what it
/// holds back. The redrawn file shows the picture that the file shows from the cleared start, from every start.
/// All that came after the file's content comes after its own, with an end mark if there was none, and only the file
/// size in the record changes. `Ok` says what was changed; or why the file is not redrawn, and then
/// nothing is written. That the writer is asked to hand on what it holds is only tested, as with [`serve`].
///
/// `Read` comes exactly where the reader failed in the call, `Write` exactly where the writer did, and
/// `TooLong` as soon as more than 16,777,216 bytes were read. `Memory` comes where memory runs out for the
/// file or for its screen. After `Write` a prefix of the redrawn file was written, and after any other error
/// nothing. It makes at most 16,777,218 reads.
pub fn redraw<R: Read, W: Write>(
    alloc: Global,
    reader: &mut Tried<R>,
    writer: &mut Tried<W>,
) -> Result<Result<Redrawn, Unredrawn>, RunError>
    requires reads { has_failed reader.old ≡ false }
    requires writes { has_failed writer.old ≡ false }
    ensures { ServesAs R.remaining W.contents TellsRedrawn reader.old reader.new writer.old writer.new result }
{
    serve_task(alloc, reader, writer, &Redrawing)
}
