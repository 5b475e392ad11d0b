//! The states that a play may begin from.

ghost use Rattle.std.specs.Prelude.{◌≡◌, ◌↔◌, ◌++◌, ◌<◌, ◌+◌, ◌≤◌, IsTrue, length};
ghost use Rattle.ans_model.specs.Screen.StartClass.{none_known, all_known, Covers};
ghost use Rattle.ans_model.specs.Text.Words.{part_if, part_names, texts_of};

use arrayvec::ArrayVec;

/// A class of starts: which parts of the starting state are known to be as on the cleared screen.
/// Every other part may have any value; both cursors are on the screen.
#[derive(Debug, Clone, Copy, PartialEq, Eq)]
pub struct Start {
    /// Each cell, those of the spare row included, is a blank of attribute 07h.
    pub screen: bool,
    /// The cursor is at row 0 and column 0.
    pub cursor: bool,
    /// The saved cursor is at row 0 and column 0.
    pub saved: bool,
    /// The current attribute is 07h, white on black.
    pub colours: bool,
    /// Wrap is on.
    pub wrap: bool,
}

impl Start {
    /// The class of every state: no part is known.
    pub const ANY: Start = Start {
        screen: false,
        cursor: false,
        saved: false,
        colours: false,
        wrap: false,
    };

    /// The class of only the cleared screen: each part is known.
    pub const CLEARED: Start = Start {
        screen: true,
        cursor: true,
        saved: true,
        colours: true,
        wrap: true,
    };

    /// `Start::ANY`.
    pub fn any() -> Start
        ensures { result ≡ none_known }
    {
        Start::ANY
    }

    /// `Start::CLEARED`.
    pub fn cleared() -> Start
        ensures { result ≡ all_known }
    {
        Start::CLEARED
    }

    /// Whether each part that is known in this class is known in the other. Then each start of the
    /// other class is one of this class, and what is good for this class is good for the other with
    /// the same picture, as `ans_laws::start_laws` says.
    pub fn covers(self, other: Start) -> bool
        ensures { IsTrue result ↔ Covers self other }
    {
        (!self.screen || other.screen)
            && (!self.cursor || other.cursor)
            && (!self.saved || other.saved)
            && (!self.colours || other.colours)
            && (!self.wrap || other.wrap)
    }
    /// The names of the parts that are known, in the order of the fields.
    pub fn part_names(self) -> ArrayVec<&'static str, 5>
        ensures { texts_of result.items ≡ part_names self }
    {
        let mut names = ArrayVec::new();
        push_part(&mut names, self.screen, "screen");
        push_part(&mut names, self.cursor, "cursor");
        push_part(&mut names, self.saved, "saved");
        push_part(&mut names, self.colours, "colours");
        push_part(&mut names, self.wrap, "wrap");
        names
    }
}

fn push_part(names: &mut ArrayVec<&'static str, 5>, known: bool, name: &'static str)
    requires { length names.old.items < 5 }
    ensures names { texts_of names.new.items ≡ texts_of names.old.items ++ part_if known name.now }
    ensures count { length names.new.items ≤ length names.old.items + 1 }
{
    if known {
        names.push(name);
    }
}
