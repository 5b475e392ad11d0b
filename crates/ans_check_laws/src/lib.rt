//! The laws of the checker as a whole, above all its layers. No program depends on this crate. The judge of the checker
//! is in `ans_judge`.
//!
//! Each law is the contract of a function that does nothing; what a body names are laws that it rests on.
//! [`class_laws`] say which classes of starts cover which. [`command_line_laws`] say that the words by themselves
//! decide whether help or the version is shown. [`text_laws`] say that the texts are clean: of the control characters
//! only line feeds are in them, and no byte of a file is shown by one. [`report_laws`] say that what `needs` finds is
//! what each check finds. [`mend_laws`] say that mending by itself keeps the picture, that once is enough, and that no
//! own colours are left where they are named. [`redraw_laws`] say that redrawing keeps the picture, that once is
//! enough, that only its length keeps a drawing that passes from being redrawn, and that drawings of one picture get
//! one content. [`player_laws`] say what shows on which players.
#![tactic(auto)]

pub mod class_laws;
pub mod command_line_laws;
pub mod mend_laws;
pub mod player_laws;
pub mod redraw_laws;
pub mod report_laws;
pub mod text_laws;
