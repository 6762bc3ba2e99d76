//! The words that the program is called with.
ghost use Rattle.std.specs.Prelude.{◌≡◌};
ghost use Rattle.std.specs.Char.{is_ascii_digit};
ghost use Rattle.std.specs.List.{list_all};
ghost use Rattle.oo7.specs.Words.{texts, is_decimal, number_of, create_of, alone, command_of};

/// What the program can be asked for.
#[derive(Clone, Copy, Debug, PartialEq, Eq)]
pub enum Command {
    /// Make a store of so many pages.
    Create(u32),
    /// Carry the journal's records into the page file.
    Checkpoint,
    /// Print what the roots reach.
    Dump,
    /// A command that isn't there yet.
    NotYet,
}

/// The command that the words after the program's name are, and `None` where they are none.
pub fn read_command(words: &[String]) -> Option<Command>
    ensures { result ≡ command_of (texts words.now) }
{
    let [command, rest @ ..] = words else {
        return None;
    };
    match command.as_str() {
        "create" => read_create(rest),
        "checkpoint" => alone(rest, Command::Checkpoint),
        "dump" => alone(rest, Command::Dump),
        "build" | "run" | "drill" => Some(Command::NotYet),
        _ => None,
    }
}

/// A command behind which no word stands.
fn alone(words: &[String], command: Command) -> Option<Command>
    ensures { result ≡ alone command (texts words.now) }
{
    if words.is_empty() {
        Some(command)
    } else {
        None
    }
}

fn read_create(words: &[String]) -> Option<Command>
    ensures { result ≡ create_of (texts words.now) }
{
    let [pages] = words else {
        return None;
    };
    let count = read_number(pages.as_str(), 16, 16384)?;
    Some(Command::Create(count))
}

/// The number that a word writes in decimal digits, where it lies from `least` to `most`.
fn read_number(text: &str, least: u32, most: u32) -> Option<u32>
    ensures { result ≡ number_of least most text.now }
{
    if !is_decimal(text.as_bytes()) {
        return None;
    }
    let Ok(number) = text.parse::<u32>() else {
        return None;
    };
    if least <= number && number <= most {
        Some(number)
    } else {
        None
    }
}

/// Whether these are decimal digits without a leading zero.
fn is_decimal(text: &[u8]) -> bool
    ensures { result ≡ is_decimal text.now }
{
    let [first, rest @ ..] = text else {
        return false;
    };
    let has_leading_zero = *first == b'0' && !rest.is_empty();
    !has_leading_zero && are_digits(text)
}

fn are_digits(text: &[u8]) -> bool
    ensures { result ≡ list_all is_ascii_digit text.now }
{
    text.iter().all(|character| character.is_ascii_digit())
}
