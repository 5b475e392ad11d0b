//! What guards the definitions: no product crate depends on this one.
//!
//! Each function here has no body: its contract is what is proved of the definitions of `ans_model`.
#![tactic(auto)]

pub mod attribute_laws;
pub mod file_laws;
pub mod report_laws;
pub mod start_laws;
pub mod step_laws;
pub mod text_examples;
pub mod text_laws;
