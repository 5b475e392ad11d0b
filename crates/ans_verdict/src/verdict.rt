//! What the checker finds of a file.
ghost use Rattle.std.specs.Prelude.{◌≡◌, ◌+◌, ◌≤◌, length, [], None, IsOk, IsSome, IfOk, IfErr, IfSome};
ghost use Rattle.ans_model.specs.Bytes.{longest_file};
ghost use Rattle.ans_model.specs.declared.start.Start.{Start};
ghost use Rattle.ans_model.specs.Verdict.Good.{GoodWith};
ghost use Rattle.ans_model.specs.Screen.StartClass.{all_known};
ghost use Rattle.ans_model.specs.Verdict.Certain.{IsCertain};
ghost use Rattle.ans_model.specs.File.Refusals.{record_fault};
ghost use Rattle.ans_play.specs.Stands.{Stands};
ghost use Rattle.ans_sauce.specs.Parts.{content_of, width_of, lines_of, size_of};
ghost use Rattle.ans_verdict.specs.FileVerdict.{Deserves, IsVerdictOn, IsGoodFile, fault_of};
ghost use Rattle.ans_verdict.specs.StartParts.{EndsFrom};

use ans_model::start::Start;
use ans_play::{Picture, Player};
use ans_sauce::{Fault, Parts, split};
use ans_screen::{Grid, HalfCell, Screen};
use std::alloc::{AllocError, Global};

/// How many bytes of the content are fed at once.
const PIECE: usize = 4_096;

/// What the checker finds of a file.
#[derive(Drop)]
pub enum Verdict<'a, G: Screen> {
    /// The content plays well from every start of the class, and shows the picture.
    Pass(Parts<'a>, Picture<G>),
    /// The file is refused. There are no parts where its record or its layout is.
    Refused(Option<Parts<'a>>, Fault),
}

/// Plays the content in pieces, on a player to which nothing is fed yet.
fn play_content<G: Screen>(mut player: Player<G>, content: &[u8]) -> Result<Picture<G>, Fault>
    requires length { length content.now ≤ longest_file }
    requires unfed { player.fed ≡ 0 }
    requires no_fault { player.fault ≡ None }
    requires stands { Stands player [] }
    ensures good { IfOk result (GoodWith player.size player.start content.now) }
    ensures refused { IfErr result (Deserves player.size player.start content.now) }
{
    for piece in content.chunks(PIECE) {
        player.feed(piece)?;
    }
    player.finish()
}

/// Plays a file's content from the starts of a class, up to its first fault, on a screen that is there
/// already. The screen has the columns that the record states, and one row more than its lines; what it
/// shows counts for nothing. No memory is asked for.
pub fn play_on<G: Screen>(screen: G, parts: &Parts<'_>, start: Start) -> Result<Picture<G>, Fault>
    requires length { length (content_of parts.now) ≤ longest_file }
    requires width { G.width_of screen ≡ width_of parts.now }
    requires rows { G.rows_of screen ≡ lines_of parts.now + 1 }
    ensures good { IfOk result (GoodWith (size_of parts.now) start (content_of parts.now)) }
    ensures refused { IfErr result (Deserves (size_of parts.now) start (content_of parts.now)) }
{
    let _width = parts.width();
    let _lines = parts.lines();
    play_content(Player::on(screen, start), parts.content())
}

/// The first fault, or else the last one, of such a play, if it has any.
pub(crate) fn fault_on<G: Screen>(screen: G, parts: &Parts<'_>, start: Start) -> Option<Fault>
    requires length { length (content_of parts.now) ≤ longest_file }
    requires width { G.width_of screen ≡ width_of parts.now }
    requires rows { G.rows_of screen ≡ lines_of parts.now + 1 }
    ensures { EndsFrom (size_of parts.now) (content_of parts.now) start result }
{
    play_on(screen, parts, start).err()
}

/// Plays the parts' content on a new screen.
///
/// Fails where memory runs out.
pub(crate) fn play<G: Grid>(
    alloc: Global,
    parts: &Parts<'_>,
    start: Start,
) -> Result<Result<Picture<G>, Fault>, AllocError>
    requires { length (content_of parts.now) ≤ longest_file }
    ensures good { IfOk result (λ end. IfOk end
        (GoodWith (size_of parts.now) start (content_of parts.now))) }
    ensures refused { IfOk result (λ end. IfErr end
        (Deserves (size_of parts.now) start (content_of parts.now))) }
{
    let screen = G::new(alloc, parts.width(), parts.lines() + 1, HalfCell::unknown())?;
    Ok(play_on(screen, parts, start))
}

/// Checks a file of at most 16,777,216 bytes: the record first, and then the play of its content from
/// the starts of a class.
///
/// Fails where memory runs out; a file that is refused for its record or its layout takes none.
/// An offset counts bytes from the file's start, which is the content's too.
pub fn check<G: Grid>(
    alloc: Global,
    file: &[u8],
    start: Start,
) -> Result<Verdict<'_, G>, AllocError>
    requires { length file.now ≤ longest_file }
    ensures verdict { IfOk result (IsVerdictOn file.now start) }
    ensures exact { IfOk result (λ v. IsGoodFile file.now start → fault_of v ≡ None) }
    ensures certain { start ≡ all_known → IfOk result (λ v. IfSome (fault_of v) (λ f. IsCertain f.cause)) }
    ensures offset { IfOk result (λ v. IfSome (fault_of v) (λ f. f.offset ≤ length file.now)) }
    ensures memory { IsSome (record_fault file.now) → IsOk result }
{
    let parts = match split(file) {
        Ok(parts) => parts,
        Err(fault) => return Ok(Verdict::Refused(None, fault)),
    };
    let end = play(alloc, &parts, start)?;
    match end {
        Ok(picture) => Ok(Verdict::Pass(parts, picture)),
        Err(fault) => Ok(Verdict::Refused(Some(parts), fault)),
    }
}
