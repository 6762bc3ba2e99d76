//! Mutators of one table.
use super::*;
use pm3_core::{BASE, PAGE_BYTES};
use pm3_locks::{Busy, Full, Limit, Unit, draw_name, draw_page, give, take};
use pm3_rows::{Words, clear, mark, read_one, scan, store_word, validate};
use pm3_table::{CloseFault, Homes};
use std::test::Fail;

#[test]
fn homes_keep_what_is_set(rt: HostRuntime) -> Result<(), Fail> {
    let mut homes = Homes::new(rt.alloc(), 3)?;
    homes.set(Unit::Page(2), Tally { count: 5 });
    homes.set(Unit::Turn, Tally { count: 6 });
    assert!(rt; homes.take(Unit::Space(0)).is_none());
    assert_eq!(rt; homes.take(Unit::Page(2)).map(|tally| tally.count), Some(5));
    assert!(rt; homes.take(Unit::Page(2)).is_none());
    assert_eq!(rt; homes.take(Unit::Turn).map(|tally| tally.count), Some(6));
    Ok(())
}

#[test]
fn a_drawn_name_is_the_first_and_no_page_is_left(rt: HostRuntime) -> Result<(), Fail> {
    let (shared, mut first) = sixteen(rt.alloc(), 16)?;
    assert_eq!(rt; draw_name(&shared, &mut first), Ok(1));
    assert_eq!(rt;
        draw_page(&shared, &mut first),
        Err(Full {
            what: Limit::Pages,
            limit: 16
        })
    );
    Ok(())
}

#[test]
fn a_unit_is_refused_while_it_is_held(rt: HostRuntime) -> Result<(), Fail> {
    let (shared, mut first) = sixteen(rt.alloc(), 16)?;
    let Ok(mut second) = shared.split(&mut first) else {
        return Err(Fail::new("no row"));
    };
    let Ok(slot) = take(&shared, &mut first, Unit::Page(2)) else {
        return Err(Fail::new("refused"));
    };
    let Err(busy) = take(&shared, &mut second, Unit::Page(2)) else {
        return Err(Fail::new("not refused"));
    };
    assert_eq!(rt;
        busy,
        Busy {
            unit: Unit::Page(2),
            word: 1
        }
    );
    give(&shared, &mut first, Unit::Page(2), slot);
    assert!(rt; take(&shared, &mut second, Unit::Page(2)).is_ok());
    Ok(())
}

#[test]
fn there_are_32_rows(rt: HostRuntime) -> Result<(), Fail> {
    let (shared, mut first) = sixteen(rt.alloc(), 16)?;
    assert!(rt; use_up_rows(&shared, &mut first, 31));
    let Err(full) = shared.split(&mut first) else {
        return Err(Fail::new("a row more"));
    };
    assert_eq!(rt;
        full,
        Full {
            what: Limit::Rows,
            limit: 32
        }
    );
    Ok(())
}

#[test]
fn a_word_is_stored_validated_and_read(rt: HostRuntime) -> Result<(), Fail> {
    let (shared, mut first) = sixteen(rt.alloc(), 16)?;
    let word = BASE + PAGE_BYTES * 3 + 100;
    store_word(&shared, &mut first, 5, word);
    assert_eq!(rt; validate(&shared, &mut first, 5), Ok(()));
    assert_eq!(rt; read_one(&shared, &mut first, 0, 5), word);
    clear(&shared, &mut first, 5);
    assert_eq!(rt; read_one(&shared, &mut first, 0, 5), 0);
    Ok(())
}

#[test]
fn a_scan_reads_every_place(rt: HostRuntime) -> Result<(), Fail> {
    let (shared, mut first) = sixteen(rt.alloc(), 16)?;
    store_word(&shared, &mut first, 511, 9);
    let mut words = Words::room(rt.alloc())?;
    scan(&shared, &mut first, &mut words);
    assert_eq!(rt; words.get(0, 511), 9);
    assert_eq!(rt; words.get(31, 511), 0);
    Ok(())
}

#[test]
fn a_copied_word_of_a_marked_page_is_refused(rt: HostRuntime) -> Result<(), Fail> {
    let (shared, mut first) = sixteen(rt.alloc(), 3)?;
    let Ok(mut second) = shared.split(&mut first) else {
        return Err(Fail::new("no row"));
    };
    let word = BASE + PAGE_BYTES * 3 + 100;
    store_word(&shared, &mut second, 1, word);
    assert!(rt; validate(&shared, &mut second, 1).is_ok());
    let Ok(_) = take(&shared, &mut first, Unit::Space(0)) else {
        return Err(Fail::new("refused"));
    };
    let Ok(page) = grow(&shared, &mut first, 0) else {
        return Err(Fail::new("no page"));
    };
    assert_eq!(rt; page, 3);
    mark(&shared, &mut first, page);
    assert_eq!(rt; read_one(&shared, &mut first, 1, 0), 0);
    store_word(&shared, &mut second, 0, word);
    assert_eq!(rt;
        validate(&shared, &mut second, 0),
        Err(Busy {
            unit: Unit::Page(3),
            word: 65_536 + 256
        })
    );
    clear(&shared, &mut second, 0);
    assert_eq!(rt; read_one(&shared, &mut second, 1, 0), 0);
    clear(&shared, &mut second, 1);
    let mut words = Words::room(rt.alloc())?;
    scan(&shared, &mut first, &mut words);
    assert_eq!(rt; words.get(1, 1), 0);
    Ok(())
}

#[test]
fn a_word_shows_the_state_of_its_page(rt: HostRuntime) -> Result<(), Fail> {
    let (shared, mut first) = sixteen(rt.alloc(), 3)?;
    let Ok(_) = take(&shared, &mut first, Unit::Space(4)) else {
        return Err(Fail::new("refused"));
    };
    let Ok(page) = grow(&shared, &mut first, 4) else {
        return Err(Fail::new("no page"));
    };
    assert_eq!(rt; word_of_page(&shared, &mut first, page), 5 * 65_536);
    assert_eq!(rt; mark_seen(&shared, &mut first, page, 4), 5 * 65_536 + 256);
    assert_eq!(rt; unmark_seen(&shared, &mut first, page, 4), 5 * 65_536);
    assert_eq!(rt; hold_seen(&shared, &mut first, page, 4), 1);
    Ok(())
}

#[test]
fn the_turn_goes_round(rt: HostRuntime) -> Result<(), Fail> {
    let (shared, mut first) = sixteen(rt.alloc(), 16)?;
    let Ok(mut second) = shared.split(&mut first) else {
        return Err(Fail::new("no row"));
    };
    assert!(rt; hold_turn(&shared, &mut first).is_ok());
    assert!(rt; hold_turn(&shared, &mut second).is_ok());
    let (shared, mut first) = sixteen(rt.alloc(), 16)?;
    let Ok(mut second) = shared.split(&mut first) else {
        return Err(Fail::new("no row"));
    };
    assert!(rt; take(&shared, &mut second, Unit::Turn).is_ok());
    assert_eq!(rt;
        hold_turn(&shared, &mut first),
        Err(Busy {
            unit: Unit::Turn,
            word: 2
        })
    );
    Ok(())
}

#[test]
fn a_commit_joins_the_history(rt: HostRuntime) -> Result<(), Fail> {
    let (shared, mut first) = sixteen(rt.alloc(), 16)?;
    assert_eq!(rt; commit_nothing(&shared, &mut first), Ok(1));
    Ok(())
}

#[test]
fn two_threads_write_their_rows(rt: HostRuntime) -> Result<(), Fail> {
    let (shared, mut first) = sixteen(rt.alloc(), 16)?;
    let Ok(second) = shared.split(&mut first) else {
        return Err(Fail::new("no row"));
    };
    let ((_, one), (_, other)) = write_both(&rt, &shared, first, second);
    assert_eq!(rt; one, 7);
    assert_eq!(rt; other, 8);
    Ok(())
}

#[test]
fn two_threads_hold_pages_and_store_beside_each_other(rt: HostRuntime) -> Result<(), Fail> {
    let (shared, mut first) = sixteen(rt.alloc(), 16)?;
    let Ok(second) = shared.split(&mut first) else {
        return Err(Fail::new("no row"));
    };
    let word = BASE + PAGE_BYTES * 4 + 8;
    let held = hold_beside(
        &rt,
        &shared,
        (first, 4, word + PAGE_BYTES),
        (second, 5, word),
    );
    assert_eq!(rt; held, (true, true));
    Ok(())
}

#[test]
fn a_mark_beside_a_validation_sees_what_stands(rt: HostRuntime) -> Result<(), Fail> {
    let (shared, mut first) = sixteen(rt.alloc(), 3)?;
    let Ok(second) = shared.split(&mut first) else {
        return Err(Fail::new("no row"));
    };
    let Ok(_) = take(&shared, &mut first, Unit::Space(0)) else {
        return Err(Fail::new("refused"));
    };
    let Ok(page) = grow(&shared, &mut first, 0) else {
        return Err(Fail::new("no page"));
    };
    let words = Words::room(rt.alloc())?;
    let word = BASE + PAGE_BYTES * 3 + 8;
    assert!(rt; mark_beside(&rt, &shared, first, second, page, word, words));
    Ok(())
}

#[test]
fn a_table_with_another_mutator_is_not_closed(rt: HostRuntime) -> Result<(), Fail> {
    let (shared, mut first) = sixteen(rt.alloc(), 16)?;
    let Ok(_second) = shared.split(&mut first) else {
        return Err(Fail::new("no row"));
    };
    match shared.close(rt.alloc(), first) {
        Ok(_) => Err(Fail::new("closed")),
        Err(
            CloseFault::NotAll {
                made,
                joined,
                shared: _shared,
                pass: _pass,
            },
        ) => {
            assert_eq!(rt; made, 2);
            assert_eq!(rt; joined, 1);
            Ok(())
        }
        Err(CloseFault::Memory { homes }) => {
            drain(homes);
            Err(Fail::new("no memory"))
        }
    }
}

#[test]
fn a_table_is_closed_once_all_are_joined(rt: HostRuntime) -> Result<(), Fail> {
    let (shared, mut first) = sixteen(rt.alloc(), 16)?;
    let Ok(second) = shared.split(&mut first) else {
        return Err(Fail::new("no row"));
    };
    shared.join(&mut first, second);
    match shared.close(rt.alloc(), first) {
        Ok(_) => Ok(()),
        Err(
            CloseFault::NotAll {
                made: _,
                joined: _,
                shared: _shared,
                pass: _pass,
            },
        ) => Err(Fail::new("not closed")),
        Err(CloseFault::Memory { homes }) => {
            drain(homes);
            Err(Fail::new("no memory"))
        }
    }
}
