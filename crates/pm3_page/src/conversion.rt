//! A whole page from a file into memory or from memory into a file.
ghost use Rattle.std.specs.Prelude.{◌≡◌, ◌==◌, false, length, replicate, MatchResult, Ok, Err};
ghost use Rattle.pm3_types.specs.Layout.{Sheet};
ghost use Rattle.pm3_page.specs.References.{refer_by};
ghost use Rattle.pm3_page.specs.Scan.{pass, scan, reading_to, is_blank};

use crate::addresses::{PageNo, ROOTS_PAGE};
use crate::references::Way;
use crate::start_bits::StartBits;
use crate::steps::{read_to, step_over};
use pm3_core::BASE;
use pm3_types::Catalog;

/// Turns the words of a page into those of the other form, and finds the words at which objects begin. Answers the first
/// word that departs from the form, which is the first of all where a page is neither free nor in use.
pub(crate) fn convert_page(
    catalog: &Catalog,
    way: Way,
    page: PageNo,
    words: &mut [u64],
    starts: &mut StartBits,
) -> Result<(), u32>
    requires words { length words.old ≡ 512 }
    requires starts { starts.old ≡ replicate 512 false }
    ensures { let read = pass catalog.now (refer_by BASE way) page words.old in
        MatchResult result (λ _. read ≡ Ok (record { words = words.new; starts = starts.new })) (λ i. read ≡ Err i) }
{
    if page != ROOTS_PAGE && is_zero(words) {
        return Ok(());
    }
    convert(catalog, way, page, words, starts)
}

/// Whether every word is 0.
fn is_zero(words: &[u64]) -> bool
    ensures { result ≡ is_blank words.now }
{
    words.iter().all(|word| *word == 0)
}

/// The same of a page that is not free, word by word.
fn convert(
    catalog: &Catalog,
    way: Way,
    page: PageNo,
    words: &mut [u64],
    starts: &mut StartBits,
) -> Result<(), u32>
    requires words { length words.old ≡ 512 }
    requires starts { length starts.old ≡ 512 }
    ensures { let read = scan catalog.now (refer_by BASE way) page words.old (reading_to 0 0) 0 in
        MatchResult result (λ _. read ≡ Ok (record { words = words.new; starts = starts.new })) (λ i. read ≡ Err i) }
{
    let mut reading = read_to(0, 0);
    for i in 0..512u32 {
        let Some(step) = step_over(catalog, way, page, reading, i, words[i as usize]) else {
            return Err(i);
        };
        words[i as usize] = step.word;
        starts.put(i as usize, step.begins);
        reading = step.reading;
    }
    Ok(())
}
