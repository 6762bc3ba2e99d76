//! What becomes of a write in a crash.
ghost use Rattle.std.specs.Prelude.{◌≡◌};

/// What a crash makes of a write that no sync has followed.
#[derive(Clone, Copy)]
pub enum Fate {
    /// The bytes that it put are there.
    Written,
    /// None of them is.
    Missing,
    /// The first half of its bytes is there.
    Half,
    /// Every byte of its range is 1.
    Ones,
}

impl Fate {
    ghost use Rattle.pm3_disk.specs.Crash.{fate_of};

    /// The fate of the write with this number since the last sync, two bits of `choice`.
    pub fn of(choice: u64, number: u64) -> Fate
        ensures { result ≡ fate_of choice number }
    {
        match (choice >> (2 * (number % 32))) % 4 {
            0 => Fate::Written,
            1 => Fate::Missing,
            2 => Fate::Half,
            _ => Fate::Ones,
        }
    }
}
