//! Which files are taken.

ghost use Rattle.std.specs.Prelude.{◌≡◌};
ghost use Rattle.ans_folders.specs.Paths.{is_drawing, is_taken};

/// Which files are taken.
#[derive(Debug, Clone, Copy, PartialEq, Eq)]
pub enum Taken {
    /// Those whose names end in `.ans`, in capitals or not.
    Drawings,
    /// Every file.
    Every,
}

/// Whether the name ends in `.ans`, in capitals or not.
fn is_drawing(name: &[u8]) -> bool
    ensures { result ≡ is_drawing name.now }
{
    let end = &name[name.len().saturating_sub(4)..];
    end.eq_ignore_ascii_case(b".ans")
}

impl Taken {
    /// Whether a file of this name is taken.
    pub fn takes(self, name: &str) -> bool
        ensures { result ≡ is_taken self name.now }
    {
        match self {
            Taken::Drawings => is_drawing(name.as_bytes()),
            Taken::Every => true,
        }
    }
}
