//! The bytes that make a drawing safe to show after anything.

ghost use Rattle.std.specs.Prelude.{◌≡◌};
ghost use Rattle.ans_model.specs.Screen.Beginning.{LeavesClearedScreen, mending};

/// `ESC[?7h ESC[0;37;40m ESC[2J ESC[H ESC[s`, 25 bytes without the blanks between them; ESC is the byte
/// 1Bh. They switch wrap on, set white on black, which they name, since a player's own white and black may be
/// others, clear the screen, place the cursor at home and save it there.
/// So a drawing that is good from the cleared start is good after them from every start, with the same
/// picture.
pub const SAFE_BEGINNING: &[u8] = b"\x1b[?7h\x1b[0;37;40m\x1b[2J\x1b[H\x1b[s";

/// [`SAFE_BEGINNING`] is the mending of the definitions, which leaves exactly the cleared state, whatever state it
/// is played from.
pub fn beginning_leaves_cleared_screen()
    ensures bytes { SAFE_BEGINNING.now ≡ mending }
    ensures cleared { LeavesClearedScreen }
{}
