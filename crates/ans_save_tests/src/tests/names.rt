//! Names by example.
use ans_save::{Saving, fixed_name, name_in};
use std::test::Fail;

/// A folder, the name of an input, and its name in the folder.
static NAMES: [(&str, &str, &str); 7] = [
    ("out/", "a.ans", "out/a.ans"),
    ("out/", "art/a.ans", "out/a.ans"),
    ("out/", "/srv/art.d/a", "out/a"),
    ("../x/y/", "./a.ans", "../x/y/a.ans"),
    ("/", "art//a.ans", "/a.ans"),
    ("out/", "../..", "out/.."),
    ("out/", "art/grün.ans", "out/grün.ans"),
];

/// A name, and that of the fixed file.
static FIXED: [(&str, &str); 11] = [
    ("a.ans", "a-fixed.ans"),
    ("art/a.ans", "art/a-fixed.ans"),
    ("/srv/art.d/a.ans", "/srv/art.d/a-fixed.ans"),
    ("a.b.ans", "a.b-fixed.ans"),
    ("a", "a-fixed"),
    ("art.d/a", "art.d/a-fixed"),
    ("a.", "a-fixed."),
    (".ans", "-fixed.ans"),
    ("art/.ans", "art/-fixed.ans"),
    ("grün.ans", "grün-fixed.ans"),
    ("", "-fixed"),
];

#[test]
fn names_in_a_folder(rt: HostRuntime) -> Result<(), Fail> {
    for (folder, input, expected) in NAMES {
        let name = name_in(rt.alloc(), folder, input)?;
        assert!(rt; name.as_str() == expected, "{input}: {}", name.as_str());
    }
    Ok(())
}

#[test]
fn names_of_fixed_files(rt: HostRuntime) -> Result<(), Fail> {
    for (name, expected) in FIXED {
        let fixed = fixed_name(rt.alloc(), name)?;
        assert!(rt; fixed.as_str() == expected, "{name}: {}", fixed.as_str());
    }
    Ok(())
}

#[test]
fn a_slash_names_a_folder(rt: HostRuntime) {
    assert!(rt; Saving::to("out/") == Saving::Folder("out/"));
    assert!(rt; Saving::to("/") == Saving::Folder("/"));
    assert!(rt; Saving::to("out/a") == Saving::File("out/a"));
    assert!(rt; Saving::to("") == Saving::File(""));
}
