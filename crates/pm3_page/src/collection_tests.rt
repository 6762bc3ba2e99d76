//! Each call on its happy path, and walks along pages that were put and taken in mixed order.
use super::*;
use std::alloc::Global;
use std::test::Fail;

#[test]
fn a_set_walks_its_pages_in_rising_order(rt: HostRuntime) -> Result<(), Fail> {
    let mut pages = PageSet::new(rt.alloc());
    assert!(rt; pages.is_empty());
    assert_eq!(rt; pages.next(0), None);
    for page in [700, 0, 63, 64, 16383, 700, 65] {
        assert!(rt; pages.add(page).is_ok());
    }
    assert_eq!(rt; pages.len(), 6);
    assert!(rt; pages.has(63) && pages.has(16383));
    assert!(rt; !pages.has(62) && !pages.has(16384) && !pages.has(4_294_967_295));
    let walk = [
        (0, Some(0)),
        (1, Some(63)),
        (63, Some(63)),
        (64, Some(64)),
        (65, Some(65)),
        (66, Some(700)),
        (701, Some(16383)),
        (16383, Some(16383)),
        (16384, None),
    ];
    for (start, next) in walk {
        assert_eq!(rt; pages.next(start), next);
    }
    Ok(())
}

/// Puts the blank image of a page that has none.
fn put_blank(alloc: Global, pages: &mut Pages, page: PageNo) -> Result<(), Fail> {
    if page < 3 || page >= 16384 || pages.get(page).is_some() {
        return Err("such a page can't be put".into());
    }
    let Ok(image) = Image::blank(alloc, page) else {
        return Err("memory".into());
    };
    let Ok(()) = pages.reserve(1) else {
        return Err("memory".into());
    };
    pages.put(image);
    Ok(())
}

#[derive(Clone, Copy)]
enum Step {
    Put(PageNo),
    Take(PageNo),
}

#[test]
fn images_come_and_go_in_mixed_order(rt: HostRuntime) -> Result<(), Fail> {
    let mut pages = Pages::new(rt.alloc());
    assert!(rt; pages.is_empty());
    let steps: [(Step, &[PageNo]); 8] = [
        (Step::Put(900), &[900]),
        (Step::Put(3), &[3, 900]),
        (Step::Put(16383), &[3, 900, 16383]),
        (Step::Take(900), &[3, 16383]),
        (Step::Take(901), &[3, 16383]),
        (Step::Put(4), &[3, 4, 16383]),
        (Step::Take(16383), &[3, 4]),
        (Step::Take(3), &[4]),
    ];
    for (step, there) in steps {
        match step {
            Step::Put(page) => put_blank(rt.alloc(), &mut pages, page)?,
            Step::Take(page) => {
                let was = pages.get(page).is_some();
                assert_eq!(rt;
                    pages.take(page).map(|image| image.page()),
                    was.then_some(page)
                );
            }
        }
        assert_eq!(rt; pages.len() as usize, there.len());
        let mut start = 0;
        for page in there {
            assert_eq!(rt; pages.next(start), Some(*page));
            assert_eq!(rt; pages.get(*page).map(|image| image.page()), Some(*page));
            start = *page + 1;
        }
        assert_eq!(rt; pages.next(start), None);
    }
    Ok(())
}

#[test]
fn an_image_is_written_where_it_stands(rt: HostRuntime) -> Result<(), Fail> {
    let mut pages = Pages::new(rt.alloc());
    put_blank(rt.alloc(), &mut pages, 5)?;
    assert!(rt; pages.get_mut(6).is_none());
    match pages.get_mut(5) {
        Some(image) => *image = Image::blank(rt.alloc(), 5).ok().ok_or("memory")?,
        None => return Err("page 5 is there".into()),
    }
    assert_eq!(rt; pages.get(5).map(|image| image.page()), Some(5));
    Ok(())
}

#[test]
fn marks_are_plain_data(rt: HostRuntime) {
    let marks = Marks {
        pages: 16,
        high_page: 3,
        next_name: 1,
        next_seq: 1,
    };
    assert_eq!(rt; marks.high_page, 3);
    assert_eq!(rt; marks, marks);
}
