//! A text for each file that an input names.

ghost use Rattle.std.specs.Prelude.{◌≡◌, ◌++◌, [], ◌∷◌, false, IfErr, IfNone, IfSome, OnOk};
ghost use Rattle.std.specs.List.{position};
ghost use Rattle.ans_table.specs.Counting.{counts_of};
ghost use Rattle.ans_write.specs.Puts.{device_of};
ghost use Rattle.ans_write.specs.Tried.{has_failed};
ghost use Rattle.ans_check.specs.FileRows.{TellsNamed};
ghost use Rattle.ans_check.specs.Listing.{IsFirstName, IsPlain, IsSound, MayEndListing, TakesIn, TakesOrEnds};
ghost use Rattle.ans_check.specs.Listing.{WritesListed, ends_name, held_of, last_end};
ghost use Rattle.ans_check.specs.Rows.{EndsRows, IsReady};

use crate::errors::RunError;
use crate::file_rows::{FileRows, tell_named};
use crate::inputs::Inputs;
use ans_report::{DeviceFault, Tried};
use ans_table::Counts;
use ans_verdict::KeptScreens;
use ans_write::Outbox;
use std::alloc::{AllocError, Global};
use std::io::{Read, Write};

/// How many bytes are asked for at once.
const CHUNK: usize = 65_536;

/// How many of the files that an input named so far came out how, and what it gave of the next name.
#[derive(Drop)]
pub(crate) struct Listing {
    counts: Counts,
    held: Vec<u8>,
}

/// How many of the files that an input names came out how.
#[derive(Clone, Copy)]
pub(crate) struct Listed {
    pub(crate) counts: Counts,
    /// Whether the input was read to its end.
    pub(crate) whole: bool,
}

fn first_zero(bytes: &[u8]) -> Option<usize>
    ensures { result ≡ position ends_name bytes.now }
{
    bytes.iter().position(|byte| *byte == 0)
}

/// The name that the byte 00h ends, and what comes after it, if there is one.
fn cut_name(bytes: &[u8]) -> Option<(&[u8], &[u8])>
    ensures some { IfSome result (λ cut. IsFirstName bytes.now cut.0.now cut.1.now) }
    ensures none { IfNone result (IsPlain bytes.now) }
{
    let end = first_zero(bytes)?;
    let (name, more) = bytes.split_at(end);
    Some((name, &more[1..]))
}

impl Listing {
    /// Nothing was read yet.
    fn new(alloc: Global) -> Listing
        ensures held { held_of result ≡ [] }
        ensures counts { result.counts ≡ counts_of [] }
    {
        Listing {
            counts: Counts::NONE,
            held: Vec::new(alloc),
        }
    }

    /// Holds these bytes too.
    fn hold(&mut self, bytes: &[u8]) -> Result<(), RunError>
        ensures held { OnOk result (held_of self.new ≡ held_of self.old ++ bytes.now) }
        ensures counts { OnOk result (self.new.counts ≡ self.old.counts) }
        ensures memory { IfErr result (λ e. e ≡ RunError.Memory) }
    {
        match self.held.extend_from_slice(bytes) {
            Ok(()) => Ok(()),
            Err(AllocError) => Err(RunError::Memory),
        }
    }
}

/// Writes the text of the file whose name is held, and counts it.
fn tell_held<T: FileRows, I: Inputs, W: Write>(
    alloc: Global,
    rows: &T,
    screens: &mut KeptScreens,
    inputs: I,
    listing: &mut Listing,
    out: &mut Outbox<'_, W>,
) -> Result<(), RunError>
    requires ready { IsReady out.old }
    requires sound { IsSound listing.old }
    ensures ends { EndsRows MayEndListing out.old out.new result }
    ensures takes { TakesOrEnds W.contents
        (TellsNamed I.Reader.remaining (I.is_file inputs) (I.fails inputs) (T.tells rows.now))
        listing.old (0x00 ∷ []) listing.new (device_of out.old) (device_of out.new) result }
{
    if listing.counts.files == usize::MAX {
        return Err(RunError::Memory);
    }
    let outcome = tell_named(alloc, rows, screens, inputs, listing.held.as_slice(), out)?;
    listing.counts.add(outcome);
    listing.held.clear();
    Ok(())
}

/// Writes the texts of the files whose names a piece of the input ends, and holds what comes after the last of these.
fn tell_piece<T: FileRows, I: Inputs, W: Write>(
    alloc: Global,
    rows: &T,
    screens: &mut KeptScreens,
    inputs: I,
    piece: &[u8],
    listing: &mut Listing,
    out: &mut Outbox<'_, W>,
) -> Result<(), RunError>
    requires ready { IsReady out.old }
    requires sound { IsSound listing.old }
    ensures ends { EndsRows MayEndListing out.old out.new result }
    ensures takes { TakesOrEnds W.contents
        (TellsNamed I.Reader.remaining (I.is_file inputs) (I.fails inputs) (T.tells rows.now))
        listing.old piece.now listing.new (device_of out.old) (device_of out.new) result }
{
    let mut left = piece;
    while let Some((name, more)) = cut_name(left) {
        listing.hold(name)?;
        tell_held(alloc, rows, screens, inputs, listing, out)?;
        left = more;
    }
    listing.hold(left)
}

/// Writes the text of the file of the last name, which need not be ended.
fn tell_last<T: FileRows, I: Inputs, W: Write>(
    alloc: Global,
    rows: &T,
    screens: &mut KeptScreens,
    inputs: I,
    listing: &mut Listing,
    out: &mut Outbox<'_, W>,
) -> Result<(), RunError>
    requires ready { IsReady out.old }
    requires sound { IsSound listing.old }
    ensures ends { EndsRows MayEndListing out.old out.new result }
    ensures takes { TakesOrEnds W.contents
        (TellsNamed I.Reader.remaining (I.is_file inputs) (I.fails inputs) (T.tells rows.now))
        listing.old (last_end (held_of listing.old)) listing.new (device_of out.old) (device_of out.new) result }
{
    if listing.held.is_empty() {
        return Ok(());
    }
    tell_held(alloc, rows, screens, inputs, listing, out)
}

/// Writes the texts of the files whose names an input gives, each ended by the byte 00h, in their order. The last name
/// need not be ended. A text is written, and the writer is asked to hand it on, before more of the input is waited for.
/// Memory is asked for no more than one name. If the input fails, a name that is not ended may have been cut off, and
/// has no text.
///
/// At `Err` a prefix of the texts was written. `Err(Write)` comes exactly if the device failed in the call, and
/// `Err(Memory)` if memory ran out for a name, or for a text that may lack it, and if there are 2^64 files.
pub(crate) fn tell_listed<T: FileRows, I: Inputs, R: Read, W: Write>(
    alloc: Global,
    rows: &T,
    inputs: I,
    reader: &mut Tried<R>,
    out: &mut Outbox<'_, W>,
) -> Result<Listed, RunError>
    requires works { has_failed reader.old ≡ false }
    requires ready { IsReady out.old }
    ensures ends { EndsRows MayEndListing out.old out.new result }
    ensures listed { WritesListed W.contents R.remaining
        (TellsNamed I.Reader.remaining (I.is_file inputs) (I.fails inputs) (T.tells rows.now))
        [] reader.old reader.new (device_of out.old) (device_of out.new) result }
{
    let mut chunk = [0u8; CHUNK];
    let mut screens = KeptScreens::new(alloc);
    let mut listing = Listing::new(alloc);
    for _ in 0..u64::MAX {
        match reader.read_some(&mut chunk) {
            Ok(0) => {
                tell_last(alloc, rows, &mut screens, inputs, &mut listing, out)?;
                return Ok(Listed {
                    counts: listing.counts,
                    whole: true,
                });
            }
            Ok(n) => {
                let piece = &chunk[..n];
                tell_piece(alloc, rows, &mut screens, inputs, piece, &mut listing, out)?;
            }
            Err(DeviceFault) => {
                return Ok(Listed {
                    counts: listing.counts,
                    whole: false,
                });
            }
        }
    }
    Err(RunError::Memory)
}
