//! The text of a dump.
ghost use Rattle.std.specs.Prelude.{◌≡◌, ◌/◌, ◌%◌, ◌<◌, ◌≤◌, ◌++◌, [], length, false, OnOk};
ghost use Rattle.std.specs.Fmt.{decimal, digit_glyph};
ghost use Rattle.std.specs.List.{flat_map};
ghost use Rattle.pm3_types.specs.Dump.{byte_text, name_text};
ghost use Rattle.pm3_types.specs.Shown.{byte_in, list_of};

use crate::met::Met;
use crate::object::byte_of;
use itoa::Buffer;
use pm3_page::Addr;
use pm3_types::Memory;
use std::alloc::Global;
use std::marker::Model;

/// The bytes of a dump, lines of ASCII with a line feed behind each.
#[derive(Debug, Drop)]
pub struct Text {
    bytes: Vec<u8>,
}

impl Model for Text {
    ghost use Rattle.std.specs.Prelude.{ℕ, List};

    ghost Value = { List ℕ };

    ghost view = { λ t. t.bytes.items };
}

impl Text {
    /// An empty text.
    pub(crate) fn new(alloc: Global) -> Text
        ensures { result ≡ [] }
    {
        Text {
            bytes: Vec::new(alloc),
        }
    }

    /// Its bytes.
    pub fn bytes(&self) -> &[u8]
        ensures { result.now ≡ self.now }
    {
        &self.bytes
    }

    /// How many bytes it has.
    pub fn len(&self) -> usize
        ensures { result ≡ length self.now }
    {
        self.bytes.len()
    }

    /// Adds bytes.
    pub(crate) fn put(&mut self, bytes: &[u8]) -> Result<(), Memory>
        ensures { OnOk result (self.new ≡ self.old ++ bytes.now) }
    {
        let Ok(()) = self.bytes.extend_from_slice(bytes) else {
            return Err(Memory);
        };
        Ok(())
    }

    /// Adds a number in decimal digits.
    pub(crate) fn put_number(&mut self, number: u64) -> Result<(), Memory>
        ensures { OnOk result (self.new ≡ self.old ++ decimal number) }
    {
        let mut buffer = Buffer::new();
        self.put(buffer.format(number).as_bytes())
    }

    /// Adds the bytes of a word, the lowest first, as two hexadecimal digits each.
    pub(crate) fn put_word(&mut self, word: u64) -> Result<(), Memory>
        ensures { OnOk result (self.new ≡ self.old ++ flat_map byte_text (list_of 8 (byte_in word))) }
    {
        self.put(&digits_of(word))
    }

    /// Adds so many bytes of a word, the lowest first, as two hexadecimal digits each.
    pub(crate) fn put_part(&mut self, word: u64, count: u32) -> Result<(), Memory>
        requires { count ≤ 8 }
        ensures { OnOk result (self.new ≡ self.old ++ flat_map byte_text (list_of count (byte_in word))) }
    {
        for place in 0..count {
            self.put(&[high(word, place), low(word, place)])?;
        }
        Ok(())
    }

    /// Adds the number of an object that was met, or `nil`.
    pub(crate) fn put_name(&mut self, met: &Met, at: Addr) -> Result<(), Memory>
        ensures { OnOk result (self.new ≡ self.old ++ name_text met.now at) }
    {
        match met.number(at) {
            Some(number) => self.put_number(u64::from(number)),
            None => self.put(b"nil"),
        }
    }
}

/// The hexadecimal digits of the bytes of a word, the lowest first.
fn digits_of(word: u64) -> [u8; 16]
    ensures { result ≡ flat_map byte_text (list_of 8 (byte_in word)) }
{
    [
        high(word, 0),
        low(word, 0),
        high(word, 1),
        low(word, 1),
        high(word, 2),
        low(word, 2),
        high(word, 3),
        low(word, 3),
        high(word, 4),
        low(word, 4),
        high(word, 5),
        low(word, 5),
        high(word, 6),
        low(word, 6),
        high(word, 7),
        low(word, 7),
    ]
}

/// The first hexadecimal digit of a byte of a word.
fn high(word: u64, place: u32) -> u8
    requires { place < 8 }
    ensures { result ≡ digit_glyph false (byte_in word place / 16) }
{
    glyph(byte_of(word, place) / 16)
}

/// The second hexadecimal digit of a byte of a word.
fn low(word: u64, place: u32) -> u8
    requires { place < 8 }
    ensures { result ≡ digit_glyph false (byte_in word place % 16) }
{
    glyph(byte_of(word, place) % 16)
}

/// The hexadecimal digit of a number below 16.
fn glyph(digit: u8) -> u8
    requires { digit < 16 }
    ensures { result ≡ digit_glyph false digit }
{
    if digit < 10 {
        b'0' + digit
    } else {
        b'a' - 10 + digit
    }
}
