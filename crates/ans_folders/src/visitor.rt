//! What is handed what a walk finds.

ghost use Rattle.std.specs.Prelude.{OnOk, IfErr};
ghost use Rattle.ans_folders.specs.Walk.{Found};
ghost use Rattle.ans_folders.specs.Walk.Found.{File, Passed, Unreadable};

use crate::entry::Unread;

/// What is handed what a walk finds, one after the other.
pub trait Visitor {
    /// Why it stops a walk.
    type Stop;

    /// Handed this, the first visitor becomes the second, and goes on.
    ghost takes: { Self → Found → Self → Type 0 };

    /// Handed this, the first visitor becomes the second, and stops for this reason.
    ghost stops: { Self → Found → Self.Stop → Self → Type 0 };

    /// Takes a file, by its path.
    fn file(&mut self, path: &str) -> Result<(), Self::Stop>
        ensures takes { OnOk result (takes self.old (File path.now) self.new) }
        ensures stops { IfErr result (λ why. stops self.old (File path.now) why self.new) };

    /// Takes a file that is passed over because of its name.
    fn passed(&mut self, path: &str) -> Result<(), Self::Stop>
        ensures takes { OnOk result (takes self.old (Passed path.now) self.new) }
        ensures stops { IfErr result (λ why. stops self.old (Passed path.now) why self.new) };

    /// Takes a folder that cannot be listed, or an entry of which it is not known what it is; or, if a name is not
    /// UTF-8, the folder that it is in, once for each such name.
    fn unreadable(&mut self, path: &str, why: Unread) -> Result<(), Self::Stop>
        ensures takes { OnOk result (takes self.old (Unreadable path.now why) self.new) }
        ensures stops { IfErr result (λ reason. stops self.old (Unreadable path.now why) reason self.new) };
}
