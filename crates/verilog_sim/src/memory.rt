// The words of one memory.
ghost use Rattle.std.specs.Prelude.{◌≡◌, slice_index, slice_set, IfOk};
ghost use lib.ListN.{replicate};

use std::alloc::{AllocError, Global};
use std::marker::Model;

/// The words of a memory, by address. A contract sees it as their list.
#[derive(Drop)]
pub(crate) struct Memory {
    words: Vec<u128>,
}

impl Model for Memory {
    ghost use Rattle.std.specs.Prelude.{ℕ, List};

    ghost Value = { List ℕ };

    ghost view = { λ a. a.words.items };
}

impl Memory {
    /// A memory of so many words, each of them this one.
    pub(crate) fn new(alloc: Global, word: u128, depth: u32) -> Result<Self, AllocError>
        ensures { IfOk result (λ m. m ≡ replicate depth word) }
    {
        Ok(Memory {
            words: vec![in alloc; word; depth as usize]?,
        })
    }

    /// The word at an address, and 0 past the last one.
    pub(crate) fn read(&self, address: u128) -> u128
        ensures { result ≡ slice_index self.now address }
    {
        if address < self.words.len() as u128 {
            self.words[address as usize]
        } else {
            0
        }
    }

    /// Writes the word at an address, and nothing past the last one.
    pub(crate) fn write(&mut self, address: u128, word: u128)
        ensures { self.new ≡ slice_set self.old address word }
    {
        if address < self.words.len() as u128 {
            self.words[address as usize] = word;
        }
    }
}
