//! The play of the content over one half-known state, which stands for the plays from every start.
//!
//! A [`Player`] plays on a screen of its own, or with [`Player::on`] on one that is there already. It is fed the
//! content in pieces, and returns the first fault. [`Player::finish`] gives the [`Picture`] that every play shows, or
//! says which cell stays unknown. What a player says of its bytes is `Stands` of `specs/Stands.antt`: what is known of
//! its state is exactly what is so from every start. The player keeps the fault and counts the bytes fed; inside it a
//! play reads the bytes and makes the steps. Glyphs inside a row are played as runs, common sequences whole, and every
//! other byte by itself.
#![tactic(auto)]

mod picture;
mod play;
mod player;
mod span;
mod wrap;

pub use ans_model::start::Start;
pub use picture::Picture;
pub use player::Player;
