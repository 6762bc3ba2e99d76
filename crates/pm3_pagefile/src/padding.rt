//! Pages that have their bytes in front and zeros behind.
ghost use Rattle.std.specs.Prelude.{◌≡◌, ◌≤◌, length, take};
ghost use Rattle.pm3_types.specs.PageOne.{padded};

/// How many bytes a page has.
pub(crate) const PAGE_SIZE: usize = 4096;

/// A page with these bytes in front.
pub(crate) fn padded_page(front: &[u8]) -> [u8; PAGE_SIZE]
    requires { length front.now ≤ 4096 }
    ensures { result ≡ padded 4096 front.now }
{
    let mut page = [0; PAGE_SIZE];
    write_padded(&mut page, front);
    page
}

/// Writes bytes to the front of a page, and zeros behind them.
fn write_padded(page: &mut [u8], front: &[u8])
    requires size { length page.old ≡ 4096 }
    requires fits { length front.now ≤ 4096 }
    ensures { page.new ≡ padded 4096 front.now }
{
    let (head, rest) = page.split_at_mut(front.len());
    head.copy_from_slice(front);
    rest.fill(0);
}

/// Leaves the first bytes of a page, and writes zeros behind them.
pub(crate) fn clear_behind(page: &mut [u8], count: usize)
    requires size { length page.old ≡ 4096 }
    requires fits { count ≤ 4096 }
    ensures { page.new ≡ padded 4096 (take count page.old) }
{
    let (_, rest) = page.split_at_mut(count);
    rest.fill(0);
}
