//! Files that are saved on a disk in memory.
use super::shelf::Shelf;
use ans_save::{Kind, Reason, SaveError, Saves, Saving, save};
use std::alloc::{AllocError, Global};
use std::process::Abort;
use std::test::Fail;

/// What is written.
const NEW: &[u8] = b"new bytes";

/// What was there.
const OLD: &[u8] = b"old";

/// A disk with inputs, targets and what is no target, of which this call fails.
fn shelf(alloc: Global, fails_at: u64) -> Result<Shelf, AllocError> {
    let mut shelf = Shelf::new(alloc, fails_at);
    shelf.put("a.ans", Kind::File, 0o640, OLD)?;
    shelf.put("b.ans", Kind::File, 0o444, OLD)?;
    shelf.put("t.ans", Kind::File, 0o4600, OLD)?;
    shelf.put("locked.ans", Kind::File, 0o400, OLD)?;
    shelf.put("out/a.ans", Kind::File, 0o604, OLD)?;
    shelf.put("folder", Kind::Folder, 0o755, b"")?;
    shelf.put("null", Kind::Special, 0o666, b"")?;
    shelf.put(".anscheck-0", Kind::File, 0o600, OLD)?;
    Ok(shelf)
}

/// How a file is saved, what its input is, its target, the permissions that it comes to, and the changes that are asked
/// for in order.
static SAVED: [(Saving<'static>, Option<&str>, &str, u32, &str); 6] = [
    (
        Saving::InPlace,
        Some("a.ans"),
        "a.ans",
        0o640,
        "make .anscheck-0\nmake .anscheck-1\nwrite\npermit\nsync\nrename to a.ans\n",
    ),
    (
        Saving::File("t.ans"),
        Some("a.ans"),
        "t.ans",
        0o4600,
        "make .anscheck-0\nmake .anscheck-1\nwrite\npermit\nrename to t.ans\n",
    ),
    (
        Saving::File("n.ans"),
        Some("b.ans"),
        "n.ans",
        0o444,
        "make .anscheck-0\nmake .anscheck-1\nwrite\nrename to n.ans\n",
    ),
    (
        Saving::File("n.ans"),
        None,
        "n.ans",
        0o644,
        "make .anscheck-0\nmake .anscheck-1\nwrite\nrename to n.ans\n",
    ),
    (
        Saving::Folder("out/"),
        Some("a.ans"),
        "out/a.ans",
        0o604,
        "folder out/\nmake out/.anscheck-0\nwrite\npermit\nrename to out/a.ans\n",
    ),
    (
        Saving::Folder("x/y/"),
        Some("out/a.ans"),
        "x/y/a.ans",
        0o604,
        "folder x/y/\nmake x/y/.anscheck-0\nwrite\nrename to x/y/a.ans\n",
    ),
];

/// How a file is not saved, and why. No change is asked for but of a folder.
static UNSAVED: [(Saving<'static>, Option<&str>, SaveError); 12] = [
    (Saving::InPlace, None, SaveError::NoName),
    (Saving::Folder("out/"), None, SaveError::NoName),
    (Saving::File("a.ans"), Some("a.ans"), SaveError::IsInput),
    (Saving::File("b.ans"), Some("a.ans"), SaveError::IsInput),
    (Saving::File("a.ans"), None, SaveError::IsInput),
    (Saving::InPlace, Some("b.ans"), SaveError::NotWritable),
    (
        Saving::File("locked.ans"),
        Some("a.ans"),
        SaveError::NotWritable,
    ),
    (
        Saving::File("folder"),
        Some("a.ans"),
        SaveError::Unopened(Reason::Folder),
    ),
    (
        Saving::File("null"),
        Some("a.ans"),
        SaveError::Unopened(Reason::Special),
    ),
    (
        Saving::InPlace,
        Some("none.ans"),
        SaveError::Unopened(Reason::Missing),
    ),
    (
        Saving::File("n.ans"),
        Some("none.ans"),
        SaveError::Unopened(Reason::Missing),
    ),
    (
        Saving::InPlace,
        Some("null"),
        SaveError::Unopened(Reason::Special),
    ),
];

#[test]
fn saves_in_order(rt: HostRuntime) -> Result<(), Fail> {
    for (saving, input, target, permissions, log) in SAVED {
        let mut disk = shelf(rt.alloc(), 0)?;
        let mut saves = Saves::new(rt.alloc(), &disk, &["a.ans", "b.ans", "none.ans"])?;
        let outcome = save(rt.alloc(), &mut disk, &mut saves, saving, input, NEW);
        assert!(rt; outcome.is_ok());
        assert!(rt; disk.bytes(target) == Some(NEW));
        assert!(rt;
            disk.found(target).map(|found| found.permissions) == Some(permissions),
            "{target}"
        );
        assert!(rt; disk.log.as_str() == log, "{}", disk.log.as_str());
    }
    Ok(())
}

#[test]
fn refuses_before_any_change(rt: HostRuntime) -> Result<(), Fail> {
    for (saving, input, error) in UNSAVED {
        let mut disk = shelf(rt.alloc(), 0)?;
        let mut saves = Saves::new(rt.alloc(), &disk, &["a.ans", "b.ans", "none.ans"])?;
        let outcome = save(rt.alloc(), &mut disk, &mut saves, saving, input, NEW);
        assert!(rt; outcome == Err(error), "{outcome:?} in place of {error:?}");
        assert!(rt; disk.log.as_str() == "");
    }
    Ok(())
}

/// Whether each file that was there before is as it was, and no other is there.
fn is_as_before(disk: &Shelf, before: &Shelf) -> bool {
    for entry in &before.entries {
        if disk.bytes(entry.name.as_str()) != Some(entry.bytes.as_slice()) {
            return false;
        }
    }
    disk.entries.len() == before.entries.len()
}

/// Saves with each call failing in turn, until none does.
fn fail_each(
    rt: &(impl Abort + AllocGlobal),
    saving: Saving<'_>,
    input: Option<&str>,
    target: &str,
) -> Result<(), AllocError> {
    let before = shelf(rt.alloc(), 0)?;
    for fails_at in 1..40 {
        let mut disk = shelf(rt.alloc(), fails_at)?;
        let mut saves = Saves::new(rt.alloc(), &before, &["a.ans"])?;
        match save(rt.alloc(), &mut disk, &mut saves, saving, input, NEW) {
            Ok(()) => {
                assert!(rt; disk.calls() < fails_at && disk.bytes(target) == Some(NEW));
                return Ok(());
            }
            Err(error) => {
                assert!(rt;
                    matches!(
                        error,
                        SaveError::Unopened(Reason::Full) | SaveError::Unwritten(Reason::Full)
                    )
                );
                assert!(rt; is_as_before(&disk, &before), "at {fails_at}");
            }
        }
    }
    panic!(rt; "it never ends")
}

#[test]
fn leaves_all_as_before_if_a_call_fails(rt: HostRuntime) -> Result<(), Fail> {
    for (saving, input, target, _, _) in SAVED {
        fail_each(&rt, saving, input, target)?;
    }
    Ok(())
}

#[test]
fn writes_no_file_twice(rt: HostRuntime) -> Result<(), Fail> {
    let mut disk = shelf(rt.alloc(), 0)?;
    let mut saves = Saves::new(rt.alloc(), &disk, &["a.ans", "out/a.ans"])?;
    let folder = Saving::Folder("x/");
    assert!(rt;
        save(
            rt.alloc(),
            &mut disk,
            &mut saves,
            folder,
            Some("a.ans"),
            NEW
        )
        .is_ok()
    );
    let again = save(
        rt.alloc(),
        &mut disk,
        &mut saves,
        folder,
        Some("out/a.ans"),
        OLD,
    );
    assert!(rt; again == Err(SaveError::WrittenBefore) && disk.bytes("x/a.ans") == Some(NEW));
    let over = Saving::InPlace;
    assert!(rt; save(rt.alloc(), &mut disk, &mut saves, over, Some("a.ans"), NEW).is_ok());
    let again = save(rt.alloc(), &mut disk, &mut saves, over, Some("a.ans"), OLD);
    assert!(rt; again == Err(SaveError::WrittenBefore) && disk.bytes("a.ans") == Some(NEW));
    Ok(())
}

#[test]
fn gives_up_if_each_name_is_taken(rt: HostRuntime) -> Result<(), Fail> {
    let mut disk = shelf(rt.alloc(), 0)?;
    for number in 1..100 {
        let name = format!(in rt.alloc(); ".anscheck-{number}")?;
        disk.put(name.as_str(), Kind::File, 0o600, b"")?;
    }
    let mut saves = Saves::new(rt.alloc(), &disk, &["a.ans"])?;
    let outcome = save(
        rt.alloc(),
        &mut disk,
        &mut saves,
        Saving::InPlace,
        Some("a.ans"),
        NEW,
    );
    assert!(rt; outcome == Err(SaveError::Unwritten(Reason::Taken)));
    Ok(())
}
