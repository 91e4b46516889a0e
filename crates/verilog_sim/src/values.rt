// The values of all nets.
ghost use Rattle.std.specs.Prelude.{◌≡◌, ℕ, ◌<◌, ◌^◌, true, List, length, map, All, slice_index, slice_set, replicate, IfOk};
ghost use Rattle.verilog_sim.specs.Instructions.{IsSafe};
ghost use Rattle.verilog_sim.specs.Batches.{instruction_of, Advances};

use crate::batch::Entry;
use crate::instruction::low_half;
use crate::memory::Memory;
use crate::narrow::settle_entries;
use crate::operations::Operation;
use rtl_ir::NetId;
use std::alloc::{AllocError, Global};
use std::marker::Model;

/// The value of each net, by its number. A contract sees it as their list.
///
/// The low 64 bits of all nets stand apart, so that a net of at most 64 bits takes 8 bytes where it
/// is read or written.
#[derive(Drop)]
pub(crate) struct Values {
    low: Vec<u64>,
    high: Vec<u64>,
}

impl Model for Values {
    ghost use Rattle.std.specs.Prelude.{◌≡◌, ℕ, List, length};
    ghost use Rattle.verilog_sim.specs.Halves.{words};

    ghost Value = { List ℕ };

    ghost view = { λ a. words a.low.items a.high.items };

    ghost invariant = { λ a. length a.low.items ≡ length a.high.items };
}

impl Values {
    /// The value 0 for each of so many nets.
    pub(crate) fn zeros(alloc: Global, nets: usize) -> Result<Self, AllocError>
        ensures { IfOk result (λ v. v ≡ replicate nets 0) }
    {
        Ok(Values {
            low: vec![in alloc; 0; nets]?,
            high: vec![in alloc; 0; nets]?,
        })
    }

    /// The value of a net.
    pub(crate) fn get(&self, net: NetId) -> u128
        requires { net < length self.now }
        ensures { result ≡ slice_index self.now net }
    {
        let k = net.index();
        self.low[k] as u128 + ((self.high[k] as u128) << 64)
    }

    /// Gives a net its value.
    pub(crate) fn set(&mut self, net: NetId, word: u128)
        requires { net < length self.old }
        ensures { self.new ≡ slice_set self.old net word }
    {
        let k = net.index();
        self.low[k] = low_half(word);
        self.high[k] = (word >> 64) as u64;
    }

    /// The value of a net, which has at most 64 bits where `narrow`.
    pub(crate) fn read(&self, net: NetId, narrow: bool) -> u128
        requires net { net < length self.now }
        requires narrow { narrow ≡ true → slice_index self.now net < 2 ^ 64 }
        ensures { result ≡ slice_index self.now net }
    {
        if narrow {
            self.low[net.index()] as u128
        } else {
            self.get(net)
        }
    }

    /// Gives a net its value. Where `narrow`, that and the one before have at most 64 bits.
    pub(crate) fn write(&mut self, net: NetId, word: u128, narrow: bool)
        requires net { net < length self.old }
        requires before { narrow ≡ true → slice_index self.old net < 2 ^ 64 }
        requires word { narrow ≡ true → word < 2 ^ 64 }
        ensures { self.new ≡ slice_set self.old net word }
    {
        if narrow {
            self.low[net.index()] = low_half(word);
        } else {
            self.set(net, word);
        }
    }

    /// Gives each target of the instructions of one operation its value, in their order.
    pub(crate) fn settle<R: Operation>(&mut self, entries: &[Entry<R>], memories: &[Memory])
        requires safe { All (IsSafe (length self.old) (length memories.now)) (map (instruction_of R.step) entries.now) }
        ensures advances { Advances (map (instruction_of R.step) entries.now) memories.now self.old self.new }
        ensures size { length self.new ≡ length self.old }
    {
        settle_entries(entries, memories, self.low.as_mut_slice());
    }
}
