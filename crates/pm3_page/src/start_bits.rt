//! For each word of a page whether an object begins there, as bits.
ghost use Rattle.std.specs.Prelude.{◌≡◌, ◌↔◌, IsTrue, ◌<◌, ◌≤◌, false, true, length, replicate, slice_index_or, slice_set};
ghost use Rattle.pm3_page.specs.StartBits.{bits_in, IsFirstFrom};

use crate::bits::next_bit;
use std::marker::Model;

/// The words of a page at which objects begin.
#[derive(Debug, Drop)]
pub(crate) struct StartBits {
    bits: [u64; 8],
}

impl Model for StartBits {
    ghost use Rattle.std.specs.Prelude.{◌≡◌, List, Bool, length};
    ghost use Rattle.pm3_page.specs.StartBits.{bits_in};

    ghost Value = { List Bool };

    ghost view = { λ s. bits_in s.bits };
}

impl StartBits {
    /// No object begins anywhere.
    pub(crate) fn new() -> StartBits
        ensures { result ≡ replicate 512 false }
    {
        StartBits { bits: [0; 8] }
    }

    /// Whether an object begins at the word.
    pub(crate) fn has(&self, word: usize) -> bool
        requires { word < 512 }
        ensures { result ≡ slice_index_or self.now word false }
    {
        self.bits[word / 64] >> (word % 64) & 1 == 1
    }

    /// An object begins at the word from now on.
    pub(crate) fn add(&mut self, word: usize)
        requires { word < 512 }
        ensures { self.new ≡ slice_set self.old word true }
    {
        self.bits[word / 64] |= 1 << (word % 64);
    }

    /// No object begins at the word from now on.
    fn remove(&mut self, word: usize)
        requires { word < 512 }
        ensures { self.new ≡ slice_set self.old word false }
    {
        self.bits[word / 64] &= !(1 << (word % 64));
    }

    /// Whether an object begins at the word is this from now on.
    pub(crate) fn put(&mut self, word: usize, begins: bool)
        requires { word < 512 }
        ensures { self.new ≡ slice_set self.old word begins }
    {
        if begins {
            self.add(word);
        } else {
            self.remove(word);
        }
    }

    /// The first word from this one on at which an object begins.
    pub(crate) fn next(&self, from: usize) -> Option<usize>
        requires { from ≤ 512 }
        ensures { IsFirstFrom self.now from result }
    {
        match next_bit(&self.bits, from as u32) {
            Some(word) => Some(word as usize),
            None => None,
        }
    }

    /// Whether objects begin at the same words.
    pub(crate) fn is_same(&self, other: &StartBits) -> bool
        ensures { IsTrue result ↔ (self.now ≡ other.now) }
    {
        have_same_bits(&self.bits, &other.bits)
    }

    /// Equal values.
    pub(crate) fn copy(&self) -> StartBits
        ensures { result ≡ self.now }
    {
        StartBits { bits: self.bits }
    }
}

/// Whether words of the same number have the same bits.
fn have_same_bits(one: &[u64], other: &[u64]) -> bool
    requires { length one.now ≡ length other.now }
    ensures { IsTrue result ↔ (bits_in one.now ≡ bits_in other.now) }
{
    one == other
}
