//! `anscheck`: checks a SAUCE-marked ANSI art file, and writes the report to standard output.
//!
//! The exit status is 0 for a pass and for help, 1 for a refusal, and 2 where there is no answer;
//! the reason then goes to standard error. All of it is [`ans_check::program`].
#![tactic(auto)]

use ans_check::program;
use std::process::ExitCode;

fn main(rt: HostRuntime) -> ExitCode {
    ExitCode::from(program(&rt))
}
