//! Laws over the definitions. Each is a function with an empty body, whose clauses are the law.
ghost use Rattle.std.specs.FinMap as map;
ghost use Rattle.pm3_page.specs.FormLaws.{ReadHasForm, FormIsRead, FaultStands, WritesWhatWasRead, ReadsWhatWasWritten};
ghost use Rattle.pm3_page.specs.HomeLaws.{PutAtHome, TakenFromHome};
ghost use Rattle.pm3_page.specs.PageMap.{IsAtHome};

/// The words of a page are read word by word, and say what the form of pages says as a whole.
///
/// What is read without a fault has roots, or objects one after another without a gap with sound heads, names, references
/// and padding, in the file and as an image (`sound`). Every such page of a file is read without a fault (`every`), and
/// nothing that stands behind a word named as a fault can mend the page (`fault`). Writing what was read gives the same words
/// (`same_words`), and reading what was written gives the same image (`same_image`).
pub fn page_form_law()
    ensures sound { ReadHasForm }
    ensures every { FormIsRead }
    ensures fault { FaultStands }
    ensures same_words { WritesWhatWasRead }
    ensures same_image { ReadsWhatWasWritten }
{}

/// A law of maps of images: each image stands under its own page, as long as each that is put or written has the page that it
/// is put or written under.
pub fn images_stay_at_home()
    ensures none { IsAtHome map.empty }
    ensures put { PutAtHome }
    ensures taken { TakenFromHome }
{}
