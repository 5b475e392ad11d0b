//! Files counted by their endings.

ghost use Rattle.std.specs.Prelude.{◌≡◌, IfOk, OnOk, string_bytes};
ghost use Rattle.ans_folders.specs.Paths.{Text};
ghost use Rattle.ans_folders.specs.Endings.{CountsOneMore, counts_of, ending_count, ending_of, further_count};
ghost use Rattle.ans_folders.specs.Endings.{is_further};

use std::alloc::{AllocError, Global};
use std::collections::BTreeMap;
use std::path::Path;

/// How many endings are counted one by one.
pub const MOST_ENDINGS: usize = 1000;

/// How many files there are with each ending, in the order of the endings' bytes. A name's ending is what comes after
/// its last dot, with capitals A to Z as small letters. It is empty if nothing comes after that dot, or nothing before
/// it, or if there is none. Files with further endings, after the first [`MOST_ENDINGS`], are counted together.
#[derive(Drop)]
pub struct Endings {
    counts: BTreeMap<String, u64>,
    further: u64,
}

/// The ending of the file of this path.
fn ending_of(alloc: Global, path: &str) -> Result<String, AllocError>
    ensures { IfOk result (λ ending. string_bytes ending ≡ ending_of path.now) }
{
    let extension = Path::new(path).extension().unwrap_or("");
    let mut ending = String::from_str(alloc, extension)?;
    ending.make_ascii_lowercase();
    Ok(ending)
}

impl Endings {
    /// No file.
    pub fn new(alloc: Global) -> Endings
        ensures none { (ending : Text) → ending_count result ending ≡ 0 }
        ensures further { further_count result ≡ 0 }
    {
        Endings {
            counts: BTreeMap::new(alloc),
            further: 0,
        }
    }

    /// How many files there are with this ending.
    fn count(&self, ending: &str) -> u64
        ensures { result ≡ ending_count self.now ending.now }
    {
        self.counts.get(ending).copied().unwrap_or(0)
    }

    /// Whether files with this ending are counted with others.
    fn is_further(&self, ending: &str) -> bool
        ensures { result ≡ is_further self.now ending.now }
    {
        self.count(ending) == 0 && self.counts.len() >= MOST_ENDINGS
    }

    /// Counts the file of this path. `Err` comes if memory runs out, and if there are 2^64 files; nothing is said then
    /// of what is counted.
    pub fn add(&mut self, alloc: Global, path: &str) -> Result<(), AllocError>
        ensures { OnOk result (CountsOneMore self.old self.new (ending_of path.now)) }
    {
        let ending = ending_of(alloc, path)?;
        if self.is_further(ending.as_str()) {
            self.further = self.further.checked_add(1).ok_or(AllocError)?;
            return Ok(());
        }
        let more = self
            .count(ending.as_str())
            .checked_add(1)
            .ok_or(AllocError)?;
        self.counts.insert(ending, more)?;
        Ok(())
    }

    /// How many files there are with each ending that is counted by itself.
    pub fn counts(&self) -> &BTreeMap<String, u64>
        ensures { result.now ≡ counts_of self.now }
    {
        &self.counts
    }

    /// How many files there are with further endings.
    pub fn further(&self) -> u64
        ensures { result ≡ further_count self.now }
    {
        self.further
    }
}
