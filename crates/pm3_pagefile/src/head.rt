//! Page 0: the marks as bytes.
ghost use Rattle.std.specs.Prelude.{◌≡◌, ◌≤◌, None, length, IfOk, IfErr, OnOk};
ghost use Rattle.pm3_page.specs.Head.{AreMarks, head_bytes, head_page};
ghost use Rattle.pm3_pagefile.specs.HeadForm.{AreReadIn};

use crate::faults::MarksFault;
use crate::fields::{long, short, zeros};
use pm3_page::Marks;

/// The text `PM3PAGES`.
const KIND: u64 = 0x5345_4741_5033_4d50;

/// The version of the form.
const VERSION: u32 = 1;

/// The bytes of the head.
pub(crate) fn encode(marks: Marks) -> [u8; 40]
    ensures { result ≡ head_bytes marks }
{
    let [a, b, c, d] = marks.pages.to_le_bytes();
    let [e, f, g, h] = marks.high_page.to_le_bytes();
    let [i, j, k, l, m, n, o, p] = marks.next_name.to_le_bytes();
    let [q, r, s, t, u, v, w, x] = marks.next_seq.to_le_bytes();
    [
        b'P', b'M', b'3', b'P', b'A', b'G', b'E', b'S', // what the file is
        1, 0, 0, 0, // its version
        a, b, c, d, // how many pages it has
        e, f, g, h, // one above the greatest page in use
        0, 0, 0, 0, //
        i, j, k, l, m, n, o, p, // the next name
        q, r, s, t, u, v, w, x, // the next sequence number
    ]
}

/// The marks of page 0, of which the file may have only the first bytes, in a store of `least` to `most` pages.
pub(crate) fn decode(bytes: &[u8], least: u32, most: u32) -> Result<Marks, MarksFault>
    requires size { length bytes.now ≤ 4096 }
    requires pages { (16 ≤ least) × (most ≤ 16384) }
    ensures read { AreReadIn least most bytes.now result }
    ensures bounds { IfOk result (λ marks. AreMarks marks × (least ≤ marks.pages) × (marks.pages ≤ most)) }
    ensures damage { IfErr result (λ fault. fault ≡ MarksFault.PageFault → ⊥) }
{
    long(bytes, 0, KIND, KIND)?;
    short(bytes, 8, VERSION, VERSION)?;
    let pages = short(bytes, 12, least, most)?;
    let high_page = short(bytes, 16, 3, pages)?;
    short(bytes, 20, 0, 0)?;
    let next_name = long(bytes, 24, 1, 1 << 62)?;
    let next_seq = long(bytes, 32, 1, u64::MAX)?;
    zeros(bytes, 40, 4056)?;
    Ok(Marks {
        pages,
        high_page,
        next_name,
        next_seq,
    })
}
