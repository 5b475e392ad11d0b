//! A walk over folders of the system.

use super::log::Log;
use ans_folders::{SystemFolders, Taken, walk};
use std::os::unix::fs::symlink;
use std::{fs, io};

/// Makes the folder `walked` in the folder where the test runs.
fn make(rt: &HostRuntime) -> io::Result<()> {
    fs::create_dir_all(rt, "walked/Sub/deep")?;
    fs::create_dir(rt, "walked/empty")?;
    for path in [
        "walked/b.ans",
        "walked/a.txt",
        "walked/Sub/1.ANS",
        "walked/Sub/deep/2.ans",
    ] {
        fs::write(rt, path, "x")?;
    }
    symlink(rt, "b.ans", "walked/c.ans")?;
    symlink(rt, "Sub", "walked/d.ans")?;
    symlink(rt, "nothing", "walked/e.ans")?;
    symlink(rt, "f.ans", "walked/f.ans")
}

#[test]
fn links_to_folders_are_not_followed(rt: HostRuntime) -> io::Result<()> {
    let _ = fs::remove_dir_all(&rt, "walked");
    make(&rt)?;
    let mut log = Log::new(rt.alloc(), 99);
    let ended = walk(
        rt.alloc(),
        SystemFolders::new(&rt),
        "walked",
        Taken::Drawings,
        &mut log,
    );
    let mut linked = Log::new(rt.alloc(), 99);
    let again = walk(
        rt.alloc(),
        SystemFolders::new(&rt),
        "walked/d.ans/",
        Taken::Drawings,
        &mut linked,
    );
    fs::remove_dir_all(&rt, "walked")?;
    let text =
        "file walked/Sub/1.ANS\nfile walked/Sub/deep/2.ans\npassed walked/a.txt\nfile walked/b.ans\n\
        file walked/c.ans\n";
    assert_eq!(rt; (log.text.as_str(), ended.is_ok()), (text, true));
    let text = "file walked/d.ans/1.ANS\nfile walked/d.ans/deep/2.ans\n";
    assert_eq!(rt; (linked.text.as_str(), again.is_ok()), (text, true));
    Ok(())
}
