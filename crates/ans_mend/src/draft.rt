//! A file that is changed in place.

ghost use Rattle.std.specs.Prelude.{◌≡◌, ◌+◌, ◌-◌, ◌≤◌, ◌<◌, ◌++◌, length, take};
ghost use Rattle.ans_mend.specs.Drafts.{draft_of, with_byte};

use std::marker::Model;

/// A file in memory that is lent, with room for more bytes after it. It is changed in place.
#[derive(Drop)]
pub struct Draft<'a> {
    pub(crate) memory: &'a mut [u8],
    pub(crate) used: usize,
}

impl<'a> Model for Draft<'a> {
    ghost use Rattle.std.specs.Prelude.{◌-◌, ◌≤◌, length, take};
    ghost use Rattle.ans_mend.specs.Drafts.{DraftView, draft_of};

    ghost Value = { DraftView };

    ghost view = { λ d. draft_of (take d.used d.memory.now) (length d.memory.now - d.used) };

    ghost invariant = { λ d. d.used ≤ length d.memory.now };
}

impl<'a> Draft<'a> {
    /// The file in the first `count` bytes of a memory. The bytes after it are room.
    pub fn new(memory: &'a mut [u8], count: usize) -> Draft<'a>
        requires { count ≤ length memory.old }
        ensures { result ≡ draft_of (take count memory.old) (length memory.old - count) }
    {
        Draft {
            memory,
            used: count,
        }
    }

    /// The file as it is now.
    pub fn file(&self) -> &[u8]
        ensures { result.now ≡ self.now.file }
    {
        &self.memory[..self.used]
    }

    /// For how many bytes more there is room.
    pub fn room(&self) -> usize
        ensures { result ≡ self.now.room }
    {
        self.memory.len() - self.used
    }

    /// Cuts off what follows the first `count` bytes. It is room then.
    pub(crate) fn cut(&mut self, count: usize)
        requires { count ≤ length self.old.file }
        ensures { self.new ≡ draft_of (take count self.old.file)
            (self.old.room + (length self.old.file - count)) }
    {
        self.used = count;
    }

    /// Adds bytes at the end of the file.
    pub(crate) fn append(&mut self, bytes: &[u8])
        requires { length bytes.now ≤ self.old.room }
        ensures { self.new
            ≡ draft_of (self.old.file ++ bytes.now) (self.old.room - length bytes.now) }
    {
        let end = self.used + bytes.len();
        self.memory[self.used..end].copy_from_slice(bytes);
        self.used = end;
    }

    /// Inserts a byte at the offset.
    pub(crate) fn insert(&mut self, offset: usize, byte: u8)
        requires within { offset ≤ length self.old.file }
        requires room { 1 ≤ self.old.room }
        ensures { self.new ≡ draft_of (with_byte offset byte self.old.file) (self.old.room - 1) }
    {
        push_in(self.memory, self.used, offset, byte);
        self.used += 1;
    }
}

/// Inserts a byte at the offset in the first `count` bytes, and moves those from there on by one.
#[tactic(auto, using(crate::proofs::Pushing::pushed_in))]
fn push_in(memory: &mut [u8], count: usize, offset: usize, byte: u8)
    requires within { offset ≤ count }
    requires room { count < length memory.old }
    ensures same_length { length memory.new ≡ length memory.old }
    ensures pushed { take (count + 1) memory.new ≡ with_byte offset byte (take count memory.old) }
{
    memory.copy_within(offset..count, offset + 1);
    memory[offset] = byte;
}
