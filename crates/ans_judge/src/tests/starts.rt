//! The classes of starts at concrete values.

use super::class;
use ans_model::start::Start;
use std::test::Fail;

/// Of any start nothing is known, and of the cleared start all is.
#[test]
fn any_knows_nothing_and_cleared_all(rt: HostRuntime) -> Result<(), Fail> {
    let any = Start::any();
    assert!(rt; !any.screen && !any.cursor && !any.saved && !any.colours && !any.wrap);
    let all = Start::cleared();
    assert!(rt; all.screen && all.cursor && all.saved && all.colours && all.wrap);
    Ok(())
}

/// A class covers those of which more is known, and itself; not those of which less is known, or
/// another part.
#[test]
fn classes_cover_those_of_which_more_is_known(rt: HostRuntime) -> Result<(), Fail> {
    let cursor = Start {
        cursor: true,
        ..Start::any()
    };
    let wrap = Start {
        wrap: true,
        ..Start::any()
    };
    assert!(rt; Start::any().covers(Start::cleared()));
    assert!(rt; !Start::cleared().covers(Start::any()));
    assert!(rt; Start::any().covers(cursor) && cursor.covers(Start::cleared()));
    assert!(rt; !cursor.covers(Start::any()) && !Start::cleared().covers(cursor));
    assert!(rt; cursor.covers(cursor) && !cursor.covers(wrap));
    Ok(())
}

/// A class of which one part is known covers those of which that part is known, and no others.
#[test]
fn each_part_is_compared_with_itself(rt: HostRuntime) -> Result<(), Fail> {
    for bit in [1, 2, 4, 8, 16] {
        let (alone, others) = (class(bit), class(31 - bit));
        assert!(rt; alone.covers(alone) && alone.covers(Start::cleared()));
        assert!(rt; !alone.covers(others));
    }
    Ok(())
}
