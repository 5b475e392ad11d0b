//! A disk that is not asked for anything.

ghost use Rattle.std.specs.Prelude.{⊤};

use ans_check::{Disk, Found, Made};
use std::alloc::Global;
use std::io::{self, ErrorKind};

/// A disk on which each call fails.
#[derive(Clone, Copy)]
pub(super) struct NoDisk;

fn refusal<T>() -> io::Result<T> {
    Err(io::Error::from(ErrorKind::Unsupported))
}

impl Disk for NoDisk {
    type File = ();

    ghost did = { λ _ _ _ _. ⊤ };

    ghost leads = { λ _ _ _. ⊤ };

    ghost sees = { λ _ _ _. ⊤ };

    ghost fails = { λ _ _ _. ⊤ };

    ghost opens = { λ _ _. ⊤ };

    ghost identifies = { λ _ _ _. ⊤ };

    fn resolve(&self, _alloc: Global, _name: &str) -> io::Result<String> {
        refusal()
    }

    fn look(&self, _name: &str) -> io::Result<Option<Found>> {
        refusal()
    }

    fn try_open(&self, _name: &str) -> io::Result<()> {
        refusal()
    }

    fn make_folder(&mut self, _name: &str) -> io::Result<()> {
        refusal()
    }

    fn make(&mut self, _name: &str, _permissions: u32) -> io::Result<Made<()>> {
        refusal()
    }

    fn write(&mut self, _file: &mut (), _bytes: &[u8]) -> io::Result<()> {
        refusal()
    }

    fn permit(&mut self, _file: &mut (), _permissions: u32) -> io::Result<()> {
        refusal()
    }

    fn sync(&mut self, _file: &mut ()) -> io::Result<()> {
        refusal()
    }

    fn rename(&mut self, _from: &str, _to: &str) -> io::Result<()> {
        refusal()
    }

    fn remove(&mut self, _name: &str) -> io::Result<()> {
        refusal()
    }
}
