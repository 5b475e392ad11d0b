//! The files that are redrawn.
use super::{asked_by, expect_names, expect_plain_options};
use ans_options::{Asked, Command};
use std::alloc::AllocError;
use std::process::Abort;

/// Words that ask for files redrawn, and the files.
static REDRAWN: [(&[&str], &[&str]); 8] = words! {
    "redraw" => &[];
    "redraw" "f" => &["f"];
    "redraw" "-" => &["-"];
    "redraw" "help" => &["help"];
    "redraw" "redraw" => &["redraw"];
    "redraw" "--" "--cleared" => &["--cleared"];
    "redraw" "f" "-i" "g" "f" => &["f", "g", "f"];
    "redraw" "-i" "--" "-o" "-n" => &["-o", "-n"];
};

#[test]
fn words_name_the_files_to_be_redrawn(rt: HostRuntime) -> Result<(), AllocError> {
    for (words, files) in &REDRAWN {
        let Ok(Asked::Redraw(_, names)) = asked_by(&rt, words)? else {
            panic!(rt; "nothing to redraw")
        };
        expect_names(&rt, names.as_slice(), files);
    }
    Ok(())
}

#[test]
fn words_give_the_options_of_redrawing(rt: HostRuntime) -> Result<(), AllocError> {
    for (words, _) in &REDRAWN {
        expect_plain_options(&rt, words, Command::Redraw)?;
    }
    Ok(())
}
