//! One page from a device.
ghost use Rattle.std.specs.Prelude.{◌≡◌, ◌*◌, ◌≤◌, length, take, IfOk};
ghost use Rattle.pm3_disk.specs.Content.{IfTold};
ghost use Rattle.pm3_disk.specs.Devices.{IsHonest, OnlyReads};
ghost use Rattle.pm3_disk.specs.Faults.{HasCause};
ghost use Rattle.pm3_types.specs.PageOne.{padded};
ghost use Rattle.pm3_pagefile.specs.PageBytes.{page_at};

use crate::padding::clear_behind;
use pm3_disk::{Disk, Failed, Reader};

/// Reads the bytes of a page, with zeros behind them where the file ends within it, and answers how many it has.
pub(crate) fn read_page<D: Disk>(disk: &mut D, page: u32, out: &mut [u8]) -> Result<usize, Failed>
    requires { length out.old ≡ 4096 }
    ensures bound { IfOk result (λ count. count ≤ 4096) }
    ensures zeros { IfOk result (λ count. out.new ≡ padded 4096 (take count out.new)) }
    ensures bytes { IfOk result (λ count. IfTold (D.content disk.old) (λ bytes. take count out.new ≡ page_at page bytes)) }
    ensures reads { OnlyReads D.Disk disk.old disk.new }
    ensures cause { IsHonest D.Disk disk.old disk.new result }
{
    let count = match disk.read_at(4096 * u64::from(page), out) {
        Ok(count) => count,
        Err(failed) => return Err(failed),
    };
    clear_behind(out, count);
    Ok(count)
}

/// The same by a reader.
pub(crate) fn fetch_page<R: Reader>(
    reader: &mut R,
    page: u32,
    out: &mut [u8],
) -> Result<usize, Failed>
    requires { length out.old ≡ 4096 }
    ensures bound { IfOk result (λ count. count ≤ 4096) }
    ensures zeros { IfOk result (λ count. out.new ≡ padded 4096 (take count out.new)) }
    ensures bytes { IfOk result (λ count. IfTold (R.content reader.old) (λ bytes. take count out.new ≡ page_at page bytes)) }
    ensures same { R.content reader.new ≡ R.content reader.old }
    ensures cause { HasCause (R.faults reader.old) (R.faults reader.new) result }
{
    let count = match reader.read_at(4096 * u64::from(page), out) {
        Ok(count) => count,
        Err(failed) => return Err(failed),
    };
    clear_behind(out, count);
    Ok(count)
}
