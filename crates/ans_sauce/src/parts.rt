//! What a file with a record consists of.
ghost use Rattle.std.specs.Prelude.{◌≡◌, ◌*◌, ◌≤◌, ◌<◌, ◌↔◌, length, IsSome, IfSome};
ghost use Rattle.ans_model.specs.Bytes.{most_columns, most_lines};
ghost use Rattle.ans_model.specs.File.Record.{tinfo, comment_count, comment};

use crate::padding::trimmed;
use crate::record::Record;
use ans_model::note::Note;
use ans_model::size::Size;
use arrayvec::ArrayVec;

/// How many bytes a line of the comment block has.
pub(crate) const COMMENT_SIZE: usize = 64;

/// The parts of a file with a record: its content, its comments, its record, and what is odd about
/// the record. They lie in the file itself.
#[derive(Debug, Drop)]
pub struct Parts<'a> {
    pub(crate) content: &'a [u8],
    pub(crate) comments: &'a [u8],
    pub(crate) sauce: Record<'a>,
    pub(crate) notes: ArrayVec<Note, 6>,
    pub(crate) ghost whole_lines: { length comments.now ≡ 64 * comment_count sauce.bytes.now },
    pub(crate) ghost width_in_limit: { tinfo 1 sauce.bytes.now ≤ most_columns },
    pub(crate) ghost some_lines: { 1 ≤ tinfo 2 sauce.bytes.now },
    pub(crate) ghost lines_in_limit: { tinfo 2 sauce.bytes.now ≤ most_lines },
}

impl<'a> Parts<'a> {
    ghost use Rattle.ans_sauce.specs.RecordBytes.{sauce_bytes};
    ghost use Rattle.ans_sauce.specs.Parts.{content_of, comments_of, record_of, width_of, lines_of, size_of, notes_of};

    /// The bytes from the file's start up to the first end mark, the comment block or the record.
    pub fn content(&self) -> &'a [u8]
        ensures { result.now ≡ content_of self.now }
    {
        self.content
    }

    /// The lines of the comment block (SAUCE 00.5, comment block) after its `COMNT`: 64 bytes for
    /// each comment that the record counts.
    pub fn comments(&self) -> &'a [u8]
        ensures bytes { result.now ≡ comments_of self.now }
        ensures size { length result.now ≡ 64 * comment_count (record_of self.now) }
    {
        self.comments
    }

    /// The `i`-th comment, counted from 0, without its trailing blanks and zero bytes. `None` from
    /// the number of comments on.
    pub fn comment(&self, i: usize) -> Option<&'a [u8]>
        ensures found { IsSome result ↔ (i < comment_count (record_of self.now)) }
        ensures text { IfSome result (λ text. text.now ≡ comment (comments_of self.now) i) }
    {
        if i < self.sauce.comment_count() as usize {
            let at = COMMENT_SIZE * i;
            Some(trimmed(&self.comments[at..at + COMMENT_SIZE]))
        } else {
            None
        }
    }

    /// The record.
    pub fn sauce(&self) -> Record<'a>
        ensures { sauce_bytes result ≡ record_of self.now }
    {
        self.sauce
    }

    /// The stated width in columns, from 1 to 1024. A record that states 0 counts as 80.
    pub fn width(&self) -> usize
        ensures width { result ≡ width_of self.now }
        ensures in_limits { (1 ≤ result) × (result ≤ most_columns) }
    {
        self.sauce.width()
    }

    /// The stated number of lines, from 1 to 8192.
    pub fn lines(&self) -> usize
        ensures lines { result ≡ lines_of self.now }
        ensures in_limits { (1 ≤ result) × (result ≤ most_lines) }
    {
        self.sauce.lines()
    }

    /// The stated size of the screen: its width in columns, 80 where the record states 0, and its lines.
    pub fn size(&self) -> Size
        ensures { result ≡ size_of self.now }
    {
        Size::new(self.width(), self.lines())
    }

    /// What is odd about the record: N1 to N6, in their order, each at most once.
    pub fn notes(&self) -> &ArrayVec<Note, 6>
        ensures { result.now.items ≡ notes_of self.now }
    {
        &self.notes
    }
}
