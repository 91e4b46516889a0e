// Whether what is given to a run has the widths of a kernel's nodes.
ghost use Rattle.std.specs.Prelude.{◌≡◌, ◌≤◌, ◌<◌, ◌^◌, ℕ, true, false, Some, length, slice_index};
ghost use Rattle.stream_graph.specs.declared.node.Kind.TheVariants.{Scalar};
ghost use Rattle.stream_graph.specs.LookUps.{kind_at};
ghost use Rattle.stream_equations.specs.Equations.{chosen};
ghost use Rattle.kernel_words.specs.Streams.{IsGiven, IsGivenAt};

use crate::KernelRun;
use crate::evaluate::scalar_word;
use crate::nodes::{kind_of, width_of};
use stream_graph::{Kernel, Kind, NodeId};

/// Whether what is given to a run is given to this kernel: there is an item for each node, and each
/// word has the width of its node.
pub fn is_given(kernel: &Kernel, run: &KernelRun) -> bool
    ensures yes { result ≡ true → IsGiven kernel.now.nodes run.now }
    ensures no { result ≡ false → IsGiven kernel.now.nodes run.now → ⊥ }
{
    if run.scalars.len() != kernel.count() as usize {
        return false;
    }
    if run.sources.len() != kernel.count() as usize {
        return false;
    }
    for number in 0..kernel.count() {
        if !is_given_at(kernel, run, NodeId::new(number)) {
            return false;
        }
    }
    true
}

// Whether what is given to a node has its width.
fn is_given_at(kernel: &Kernel, run: &KernelRun, node: NodeId) -> bool
    requires node { node < length kernel.now.nodes }
    requires scalars { length run.now.scalars ≡ length kernel.now.nodes }
    requires sources { length run.now.sources ≡ length kernel.now.nodes }
    ensures yes { result ≡ true → IsGivenAt kernel.now.nodes run.now node }
    ensures no { result ≡ false → IsGivenAt kernel.now.nodes run.now node → ⊥ }
{
    let width = width_of(kernel, node);
    if !is_scalar_given(kernel, run, node, width) {
        return false;
    }
    are_words(run.sources.at(node.index()).as_slice(), width)
}

// Whether the word of a node, if it is a scalar, has so many bits.
fn is_scalar_given(kernel: &Kernel, run: &KernelRun, node: NodeId, width: u8) -> bool
    requires node { node < length kernel.now.nodes }
    requires scalars { length run.now.scalars ≡ length kernel.now.nodes }
    requires width { width ≤ 128 }
    ensures yes { result ≡ true → kind_at kernel.now.nodes node ≡ Scalar
        → slice_index run.now.scalars node < 2 ^ width }
    ensures no { result ≡ false → kind_at kernel.now.nodes node ≡ Scalar
        → slice_index run.now.scalars node < 2 ^ width → ⊥ }
    ensures kind { result ≡ false → kind_at kernel.now.nodes node ≡ Scalar }
{
    match kind_of(kernel, node) {
        Kind::Scalar => is_word(scalar_word(run, node), width),
        _ => true,
    }
}

// Whether each of these words, where it is defined, has so many bits.
fn are_words(words: &[Option<u128>], width: u8) -> bool
    requires { width ≤ 128 }
    ensures yes { result ≡ true → (k x : ℕ) → chosen words.now k ≡ Some x → x < 2 ^ width }
    ensures no { result ≡ false → ((k x : ℕ) → chosen words.now k ≡ Some x → x < 2 ^ width) → ⊥ }
{
    for word in words {
        if !is_word_or_none(*word, width) {
            return false;
        }
    }
    true
}

// Whether a word, where it is defined, has so many bits.
fn is_word_or_none(word: Option<u128>, width: u8) -> bool
    requires { width ≤ 128 }
    ensures yes { result ≡ true → (x : ℕ) → word ≡ Some x → x < 2 ^ width }
    ensures no { result ≡ false → ((x : ℕ) → word ≡ Some x → x < 2 ^ width) → ⊥ }
{
    match word {
        Some(bits) => is_word(bits, width),
        None => true,
    }
}

// Whether a number has so many bits.
fn is_word(bits: u128, width: u8) -> bool
    requires { width ≤ 128 }
    ensures yes { result ≡ true → bits < 2 ^ width }
    ensures no { result ≡ false → 2 ^ width ≤ bits }
{
    if width == 128 {
        return true;
    }
    bits >> u32::from(width) == 0
}
