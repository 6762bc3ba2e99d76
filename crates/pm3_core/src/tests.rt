//! Pages at their edges, and runs of the machine.
use super::*;
use std::test::Fail;

/// Reads every place of all rows by a mutator.
fn read_all(core: &mut Core, who: u32) -> Result<(), Memory> {
    for row in 0..ROWS {
        for place in 0..ROW_PLACES {
            core.step(Event::Read { who, row, place })?;
        }
    }
    Ok(())
}

#[test]
fn addresses_name_their_pages(rt: HostRuntime) {
    let cases = [
        (BASE - 1, None),
        (BASE, Some(0)),
        (BASE + 4095, Some(0)),
        (BASE + 4096 * 5 - 1, Some(4)),
        (BASE + 4096 * 5, Some(5)),
        (BASE + 4096 * 64 - 1, Some(63)),
        (BASE + 4096 * 64, None),
        (0, None),
        (u64::MAX, None),
    ];
    for (word, page) in cases {
        assert_eq!(rt; page_of(word, 64), page, "at {word}");
    }
}

#[test]
fn a_page_moves_once_all_places_are_read(rt: HostRuntime) -> Result<(), Fail> {
    let mut core = Core::new(rt.alloc(), 64)?;
    let to = Event::Move { who: 0, page: 3 };
    assert_eq!(rt; core.step(Event::Mark { who: 0, page: 3 })?, Stepped::Done);
    assert_eq!(rt; core.step(to)?, Stepped::Refused);
    read_all(&mut core, 1)?;
    assert_eq!(rt; core.step(to)?, Stepped::Refused);
    read_all(&mut core, 0)?;
    assert_eq!(rt;
        core.step(Event::Move { who: 1, page: 3 })?,
        Stepped::Refused
    );
    assert_eq!(rt; core.step(to)?, Stepped::Done);
    assert_eq!(rt;
        core.step(Event::Unmark { who: 0, page: 3 })?,
        Stepped::Done
    );
    assert_eq!(rt; core.step(to)?, Stepped::Refused);
    Ok(())
}

#[test]
fn a_standing_word_keeps_its_page(rt: HostRuntime) -> Result<(), Fail> {
    let mut core = Core::new(rt.alloc(), 64)?;
    let word = BASE + 4096 * 3 + 100;
    for event in [
        Event::Store {
            who: 1,
            place: 0,
            word,
        },
        Event::Validate { who: 1, place: 0 },
        Event::Mark { who: 0, page: 3 },
        Event::Mark { who: 0, page: 4 },
    ] {
        assert_eq!(rt; core.step(event)?, Stepped::Done);
    }
    read_all(&mut core, 0)?;
    assert_eq!(rt;
        core.step(Event::Move { who: 0, page: 3 })?,
        Stepped::Refused
    );
    assert_eq!(rt; core.step(Event::Move { who: 0, page: 4 })?, Stepped::Done);
    assert_eq!(rt;
        core.step(Event::Clear { who: 1, place: 0 })?,
        Stepped::Done
    );
    assert_eq!(rt;
        core.step(Event::Read {
            who: 0,
            row: 1,
            place: 0
        })?,
        Stepped::Done
    );
    assert_eq!(rt; core.step(Event::Move { who: 0, page: 3 })?, Stepped::Done);
    Ok(())
}

#[test]
fn what_is_out_of_bounds_is_refused(rt: HostRuntime) -> Result<(), Fail> {
    let mut core = Core::new(rt.alloc(), 64)?;
    for event in [
        Event::Store {
            who: 32,
            place: 0,
            word: 0,
        },
        Event::Store {
            who: 0,
            place: 512,
            word: 0,
        },
        Event::Validate { who: 32, place: 0 },
        Event::Validate { who: 0, place: 512 },
        Event::Clear { who: 32, place: 0 },
        Event::Clear { who: 0, place: 512 },
        Event::Mark { who: 32, page: 0 },
        Event::Mark { who: 0, page: 64 },
        Event::Read {
            who: 32,
            row: 0,
            place: 0,
        },
        Event::Read {
            who: 0,
            row: 32,
            place: 0,
        },
        Event::Read {
            who: 0,
            row: 0,
            place: 512,
        },
        Event::Move { who: 0, page: 64 },
        Event::Unmark { who: 0, page: 0 },
        Event::Unmark { who: 0, page: 64 },
    ] {
        assert_eq!(rt; core.step(event)?, Stepped::Refused, "at {event:?}");
    }
    assert_eq!(rt;
        core.step(Event::Mark { who: 31, page: 63 })?,
        Stepped::Done
    );
    assert_eq!(rt;
        core.step(Event::Mark { who: 0, page: 63 })?,
        Stepped::Refused
    );
    pinning_law();
    apart_law();
    standing_law();
    Ok(())
}
