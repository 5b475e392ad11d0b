//! Walks over folders in memory.

use super::log::{Log, Stop};
use super::shelf::{Folder, Shelf};
use Kind::{File, Other};
use ans_folders::{Ended, Kind, Taken, Unread, walk};
use std::alloc::AllocError;
use std::io::ErrorKind;

const SHELF: &[Folder<'static>] = &[
    ("empty", &[]),
    (
        "pack",
        &[
            ("b.ans", File),
            ("a", Kind::Folder),
            ("A.ANS", File),
            ("a-b.Ans", File),
            ("a.ans", File),
            ("pipe.ans", Other),
            ("", Kind::Unread(Unread::NameNotText)),
            ("", Kind::Unread(Unread::NameNotText)),
            ("gone", Kind::Unread(Unread::Failed(ErrorKind::NotFound))),
            ("ans", File),
            ("x.ans.txt", File),
            ("\u{e4}.ans", File),
            ("locked", Kind::Folder),
        ],
    ),
    (
        "pack/a",
        &[
            ("2.ans", File),
            ("10.ans", File),
            ("deep", Kind::Folder),
            ("README", File),
        ],
    ),
    ("pack/a/deep", &[(".ans", File)]),
    ("slash/", &[("1.ans", File)]),
];

/// How a walk ends.
#[derive(Debug, Clone, Copy, PartialEq, Eq)]
enum End {
    All,
    Stopped,
    Memory,
}

fn end_of(ended: Result<(), Ended<Stop>>) -> End {
    match ended {
        Ok(()) => End::All,
        Err(Ended::Stopped(Stop::Long)) => End::Stopped,
        Err(Ended::Stopped(Stop::Memory) | Ended::Memory) => End::Memory,
    }
}

#[test]
fn folders_are_walked_in_the_order_of_names(rt: HostRuntime) -> Result<(), AllocError> {
    let alloc = rt.alloc();
    let pack =
        "not text pack\nnot text pack\nfile pack/A.ANS\nfile pack/a/10.ans\nfile pack/a/2.ans\n\
        passed pack/a/README\nfile pack/a/deep/.ans\nfile pack/a-b.Ans\nfile pack/a.ans\npassed pack/ans\n\
        file pack/b.ans\nfailed pack/gone\nfailed pack/locked\npassed pack/x.ans.txt\nfile pack/\u{e4}.ans\n";
    let rows = [
        ("empty", Taken::Drawings, 99, "", End::All),
        ("missing", Taken::Drawings, 99, "failed missing\n", End::All),
        ("pack", Taken::Drawings, 99, pack, End::All),
        ("pack", Taken::Drawings, 15, pack, End::All),
        (
            "pack",
            Taken::Drawings,
            4,
            "not text pack\nnot text pack\nfile pack/A.ANS\nfile pack/a/10.ans\n",
            End::Stopped,
        ),
        ("pack", Taken::Drawings, 0, "", End::Stopped),
        (
            "pack/a",
            Taken::Every,
            99,
            "file pack/a/10.ans\nfile pack/a/2.ans\nfile pack/a/README\nfile pack/a/deep/.ans\n",
            End::All,
        ),
        (
            "slash/",
            Taken::Drawings,
            99,
            "file slash/1.ans\n",
            End::All,
        ),
    ];
    for (folder, taken, stops_at, text, end) in rows {
        let mut log = Log::new(alloc, stops_at);
        let ended = walk(alloc, Shelf { folders: SHELF }, folder, taken, &mut log);
        assert_eq!(rt; (log.text.as_str(), end_of(ended)), (text, end));
    }
    Ok(())
}
