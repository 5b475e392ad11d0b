//! Files that are saved on the system.
use ans_save::{Reason, SaveError, Saves, Saving, System, save};
use std::alloc::Global;
use std::os::unix::fs::{MetadataExt, symlink};
use std::process::Abort;
use std::test::Fail;
use std::{fs, io};

/// Saves these bytes for one input, in a run of its own.
fn save_one(
    alloc: Global,
    disk: &mut System<'_>,
    saving: Saving<'_>,
    input: &str,
    bytes: &[u8],
) -> Result<(), SaveError> {
    let mut saves = Saves::new(alloc, disk, &[input])?;
    save(alloc, disk, &mut saves, saving, Some(input), bytes)
}

/// Makes a new folder, and returns its name. None if the system has no place for it.
fn new_folder(rt: &HostRuntime) -> io::Result<Option<String>> {
    for number in 0..100 {
        let name = format!(in rt.alloc(); "/tmp/ans_save_tests-{number}")?;
        if fs::create_dir(rt, name.as_str()).is_ok() {
            return Ok(Some(name));
        }
    }
    Ok(None)
}

/// Whether a file holds these bytes.
fn holds(rt: &HostRuntime, name: &str, bytes: &[u8]) -> io::Result<bool> {
    Ok(fs::read(rt, name)?.as_slice() == bytes)
}

/// Saves over a file by a link of it: whether the file has the new bytes and the old permissions, its other name has
/// the old bytes, and the link is one.
fn saves_by_a_link(rt: &HostRuntime, folder: &str) -> io::Result<[bool; 5]> {
    let file = format!(in rt.alloc(); "{folder}/a.ans")?;
    let link = format!(in rt.alloc(); "{folder}/link")?;
    let hard = format!(in rt.alloc(); "{folder}/hard")?;
    fs::write(rt, file.as_str(), b"old")?;
    symlink(rt, "a.ans", link.as_str())?;
    fs::hard_link(rt, file.as_str(), hard.as_str())?;
    let mode = fs::metadata(rt, file.as_str())?.mode();
    let mut disk = System::new(rt);
    let saved = save_one(
        rt.alloc(),
        &mut disk,
        Saving::InPlace,
        link.as_str(),
        b"new",
    );
    Ok([
        saved.is_ok(),
        holds(rt, file.as_str(), b"new")?,
        fs::metadata(rt, file.as_str())?.mode() == mode,
        holds(rt, hard.as_str(), b"old")?,
        fs::symlink_metadata(rt, link.as_str())?.is_symlink(),
    ])
}

/// Saves into a new folder, and not over an input or a folder: whether that comes to what it should.
fn saves_elsewhere(rt: &HostRuntime, folder: &str) -> io::Result<[bool; 5]> {
    let file = format!(in rt.alloc(); "{folder}/a.ans")?;
    let link = format!(in rt.alloc(); "{folder}/link")?;
    let inside = format!(in rt.alloc(); "{folder}/x/y/")?;
    let copy = format!(in rt.alloc(); "{folder}/x/y/a.ans")?;
    let mut disk = System::new(rt);
    let saved = save_one(
        rt.alloc(),
        &mut disk,
        Saving::to(inside.as_str()),
        file.as_str(),
        b"copy",
    );
    let over = save_one(
        rt.alloc(),
        &mut disk,
        Saving::to(link.as_str()),
        file.as_str(),
        b"lost",
    );
    let on_folder = save_one(
        rt.alloc(),
        &mut disk,
        Saving::to(folder),
        file.as_str(),
        b"lost",
    );
    Ok([
        saved.is_ok(),
        holds(rt, copy.as_str(), b"copy")?,
        over == Err(SaveError::IsInput),
        on_folder == Err(SaveError::Unopened(Reason::Folder)),
        holds(rt, file.as_str(), b"new")?,
    ])
}

#[test]
fn saves_on_the_system(rt: HostRuntime) -> Result<(), Fail> {
    if let Some(folder) = new_folder(&rt)? {
        let by_a_link = saves_by_a_link(&rt, folder.as_str());
        let elsewhere = saves_elsewhere(&rt, folder.as_str());
        fs::remove_dir_all(&rt, folder.as_str())?;
        assert!(rt; by_a_link? == [true; 5]);
        assert!(rt; elsewhere? == [true; 5]);
    }
    Ok(())
}
