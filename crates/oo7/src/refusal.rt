//! Why a command is refused, and how that is told.
ghost use Rattle.std.specs.Prelude.{◌≡◌, ◌≤◌, length};
ghost use Rattle.oo7.specs.Output.{refused_status, fault_line, numbered};

use arrayvec::ArrayString;
use itoa::Buffer;

/// Why a command is refused.
#[derive(Clone, Copy, Debug, PartialEq, Eq)]
pub enum Refusal {
    /// The words are no command.
    Usage,
    /// The page file failed.
    PageFault,
    /// The journal failed.
    JournalFault,
    /// The page file isn't that of a store of this program, from this byte on.
    PageDamaged { offset: u64 },
    /// The journal isn't that of a store, from this byte on.
    JournalDamaged { offset: u64 },
    /// There is no memory left.
    Memory,
    /// There is a page file already.
    Exists,
    /// The command isn't there yet.
    Later,
}

impl Refusal {
    /// The status that the program ends with.
    pub fn status(self) -> u8
        ensures { result ≡ refused_status self }
    {
        match self {
            Refusal::Usage => 2,
            Refusal::PageFault => 3,
            Refusal::JournalFault => 4,
            Refusal::PageDamaged { .. } | Refusal::JournalDamaged { .. } => 5,
            Refusal::Memory => 8,
            Refusal::Exists => 9,
            Refusal::Later => 14,
        }
    }

    /// The line that the program prints. It takes no memory.
    pub fn line(self) -> ArrayString<40>
        ensures { result.bytes ≡ fault_line self }
    {
        match self {
            Refusal::Usage => text("fault 2 usage\n"),
            Refusal::PageFault => text("fault 3 pages\n"),
            Refusal::JournalFault => text("fault 4 journal\n"),
            Refusal::PageDamaged { offset } => with_number("fault 5 pages ", offset),
            Refusal::JournalDamaged { offset } => with_number("fault 5 journal ", offset),
            Refusal::Memory => text("fault 8 memory\n"),
            Refusal::Exists => text("fault 9 exists\n"),
            Refusal::Later => text("fault 14 later\n"),
        }
    }
}

fn text(words: &str) -> ArrayString<40>
    requires { length words.now ≤ 40 }
    ensures { result.bytes ≡ words.now }
{
    let mut line = ArrayString::new();
    line.push_str(words);
    line
}

/// These words and a number behind them, as a line.
fn with_number(words: &str, number: u64) -> ArrayString<40>
    requires { length words.now ≤ 19 }
    ensures { result.bytes ≡ numbered words.now number }
{
    let mut line = text(words);
    line.push_str(Buffer::new().format(number));
    line.push('\n');
    line
}
