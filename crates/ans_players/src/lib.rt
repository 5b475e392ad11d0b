//! Players that differ from the profile, and the drawings that show the same on all of them.
//!
//! The profile is one player of drawings. Viewers, emulators and terminals are others, and differ from it in
//! thirteen known ways: the kinds of [`difference::Difference`]. No real player is described here. A player is
//! whatever does as the profile does, except where a kind arises in which it is free to do otherwise
//! ([`family::Family`]). So what is proved of all players holds of each that does as the profile does
//! there, whatever it does elsewhere.
//!
//! This is narrower than every screen and every start:
//!
//! - A player has the stated columns, the stated lines and a spare row below them. Taller screens are among
//!   the players. A screen of exactly the stated lines is no player for a drawing that enters the spare row:
//!   at a line end in the last row it scrolls, and at an `ESC[nB` onto the spare row it stops above it, and
//!   these are of no kind.
//! - A start has the cursor and the saved place on the stated lines or in the spare row. Nothing is said of a
//!   cursor further down on a taller screen.
//! - A cell is a byte and an attribute, and all players draw a byte from 20h on, except for 7Fh, as the character
//!   of code page 437. A terminal that reads UTF-8 is a player only if its input is converted first.
//! - The laws speak of the memories that are in sync with a start. Each player has one for each state of a
//!   start, and of its other memories nothing is said.
//!
//! `specs/Situations.antt` says at which tokens which kinds arise, `specs/Sync.antt` how sure it is that
//! players are where the profile is, `specs/Names.antt` which colours are named, and `specs/Players.antt` what
//! a player is. `specs/Named.antt` and `specs/Classes.antt` say what is said of a drawing. `proofs` has what
//! the crates above rest on; the laws and examples are in `ans_players_laws`.
#![tactic(auto)]

pub mod difference;
pub mod family;
