//! Files counted by their endings.

use ans_folders::{Endings, MOST_ENDINGS};
use std::alloc::{AllocError, Global};

/// Each ending with its count, a line each.
fn text_of(alloc: Global, endings: &Endings) -> Result<String, AllocError> {
    let mut text = String::new(alloc);
    for (ending, count) in endings.counts().iter() {
        let line = format!(in alloc; "{count} {ending}\n")?;
        text.push_str(line.as_str())?;
    }
    Ok(text)
}

#[test]
fn files_are_counted_by_endings(rt: HostRuntime) -> Result<(), AllocError> {
    let alloc = rt.alloc();
    let paths = [
        "pack/README",
        "pack/FILE_ID.DIZ",
        "pack.d/file_id.diz",
        "pack.d/NFO",
        ".hidden",
        "dot.",
        "a.tar.GZ",
        "pack/\u{e4}.\u{c4}",
        "a.diz",
    ];
    let mut endings = Endings::new(alloc);
    for path in paths {
        endings.add(alloc, path)?;
    }
    let text = text_of(alloc, &endings)?;
    assert_eq!(rt;
        (text.as_str(), endings.further()),
        ("4 \n3 diz\n1 gz\n1 \u{c4}\n", 0)
    );
    Ok(())
}

#[test]
fn further_endings_are_counted_together(rt: HostRuntime) -> Result<(), AllocError> {
    let alloc = rt.alloc();
    let mut endings = Endings::new(alloc);
    for number in 0..MOST_ENDINGS + 3 {
        let path = format!(in alloc; "a.{number}")?;
        endings.add(alloc, path.as_str())?;
    }
    endings.add(alloc, "b.0")?;
    assert_eq!(rt;
        (endings.counts().len(), endings.further()),
        (MOST_ENDINGS, 3)
    );
    Ok(())
}
