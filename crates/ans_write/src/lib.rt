//! Writing to devices that may fail.
//!
//! A device is a [`Tried`] reader or writer, which counts its calls and remembers whether one failed;
//! one that has failed is not called again. Texts are put in an [`Outbox`], which calls its device
//! for large pieces. Others rely on one contract: what was put is taken by the device in its order,
//! and at a failure a prefix of it (`specs/Puts.antt`; `specs/Writes.antt` says what a device holds
//! after a writing).
//!
//! The crate also has the ways to write bytes: as characters ([`glyph_text`], [`put_characters`]), as
//! hexadecimal digits ([`hex_byte`]), and by [`Tables`] of both if a text is long. The characters and
//! digits are defined in `ans_model`.
#![tactic(auto)]

mod character_table;
mod characters;
mod hexadecimal;
mod outbox;
mod tables;
mod tried;
mod utf8;
mod whole_writes;

pub use characters::{glyph_text, put_characters};
pub use hexadecimal::hex_byte;
pub use outbox::{Outbox, WriteFault};
pub use tables::Tables;
pub use tried::{DeviceFault, Tried};
