// For how long words wait.
ghost use Rattle.std.specs.Prelude.{◌≡◌, ◌<◌, length, All, IfOk};
ghost use Rattle.kernel_layout.specs.Waits.{IsChainAt, AreChainNumbers, taps_of, AreShared};

use fifo_sharing::Chain;
use mx_base::{List, NoMemory};
use std::alloc::Global;

// For each of so many nodes the number of its chain, if it has one.
fn chain_numbers(
    alloc: Global,
    nodes: usize,
    chains: &[Chain],
) -> Result<Vec<Option<usize>>, NoMemory>
    requires producers { All (λ chain. chain.producer < nodes) chains.now }
    ensures { IfOk result (λ numbers.
        AreChainNumbers chains.now (length chains.now) nodes numbers.items) }
{
    let mut numbers = vec![in alloc; None; nodes]?;
    for number in 0..chains.len() {
        numbers[chains[number].producer as usize] = Some(number);
    }
    Ok(numbers)
}

// The waits of a node whose chain has this number, if it has one: the taps of the chain.
fn waits_of(
    alloc: Global,
    chains: &[Chain],
    number: Option<usize>,
    node: usize,
) -> Result<List<u64>, NoMemory>
    requires chain { IsChainAt chains.now (length chains.now) node number }
    ensures { IfOk result (λ waits. waits ≡ taps_of chains.now number) }
{
    match number {
        Some(number) => Ok(List::from_vec(chains[number].taps.as_slice().to_vec(alloc)?)),
        None => Ok(List::new(alloc)),
    }
}

/// The waits of the words of so many nodes, in node order, by the chains of those whose words wait.
pub(crate) fn all_waits(
    alloc: Global,
    nodes: usize,
    chains: &[Chain],
) -> Result<Vec<List<u64>>, NoMemory>
    requires producers { All (λ chain. chain.producer < nodes) chains.now }
    ensures { IfOk result (λ waits. AreShared chains.now nodes waits.items) }
{
    let numbers = chain_numbers(alloc, nodes, chains)?;
    let mut waits = Vec::new(alloc);
    for node in 0..nodes {
        waits.push(waits_of(alloc, chains, numbers[node], node)?)?;
    }
    Ok(waits)
}
