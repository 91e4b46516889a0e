// Whether a run file fits a design.
ghost use Rattle.std.specs.Prelude.{◌≡◌, ◌↔◌, IsTrue, IfOk, true, map, not, ◌&&◌, bytes_eq, nat_lt, ◌^◌};
ghost use Rattle.word_files.specs.RunFiles.{Name, names, SameNames, in_range, all_below, Fits};
ghost use Rattle.word_files.specs.Keys.{HasKeys};

use crate::hex::is_below;
use crate::parts::shape;
use crate::scalars::scalar_names;
use crate::{RunFile, RunFileError};
use mx_base::{List, NoMemory, Text};
use rtl_ir::{Interface, KernelPorts, StreamPorts};
use std::alloc::Global;
use std::collections::BTreeSet;

impl RunFile {
    /// Tests the run file beside the ports of a design: its kernels, scalars, inputs and outputs are
    /// exactly those of the design, and each scalar's word has at most as many bits as the scalar.
    /// Error: `Shape` with the key of the first list, in this order, that isn't so.
    pub fn fit(&self, alloc: Global, ports: &Interface) -> Result<(), RunFileError>
        ensures { Fits self.now ports.now result }
    {
        if !same_names(alloc, &self.ticks, &ports.kernels)? {
            return Err(shape(alloc, "ticks"));
        }
        let scalars = scalar_names(alloc, ports)?;
        if !scalars_fit(alloc, &self.scalars, &scalars)? {
            return Err(shape(alloc, "scalars"));
        }
        if !same_names(alloc, &self.inputs, &ports.inputs)? {
            return Err(shape(alloc, "inputs"));
        }
        if !same_names(alloc, &self.outputs, &ports.outputs)? {
            return Err(shape(alloc, "outputs"));
        }
        Ok(())
    }
}

/// What has a name.
trait Named: Sized {
    ghost name_of: { Self → Name };

    fn name(&self) -> &[u8]
        ensures { result.now ≡ name_of self.now };
}

impl Named for KernelPorts {
    ghost name_of = { λ k. k.name };

    fn name(&self) -> &[u8] {
        self.name.as_bytes()
    }
}

impl Named for StreamPorts {
    ghost name_of = { λ x. x.name };

    fn name(&self) -> &[u8] {
        self.name.as_bytes()
    }
}

impl<T> Named for (Text, T) {
    ghost name_of = { λ t. t.0 };

    fn name(&self) -> &[u8] {
        self.0.as_bytes()
    }
}

// Whether two lists have the same names.
fn same_names<A: Named, B: Named>(
    alloc: Global,
    left: &List<A>,
    right: &List<B>,
) -> Result<bool, NoMemory>
    ensures { IfOk result (λ same. IsTrue same ↔ SameNames (map A.name_of left.now) (map B.name_of right.now)) }
{
    let left = name_set(alloc, left)?;
    let right = name_set(alloc, right)?;
    let within = left.is_subset(&right);
    let around = right.is_subset(&left);
    Ok(within && around)
}

// The names of a list.
fn name_set<'a, A: Named>(alloc: Global, list: &'a List<A>) -> Result<BTreeSet<&'a [u8]>, NoMemory>
    ensures { IfOk result (λ set. HasKeys set (map A.name_of list.now)) }
{
    let mut set = BTreeSet::new(alloc);
    for item in list.as_slice() {
        set.insert(item.name())?;
    }
    Ok(set)
}

// Whether the scalars are those of the ports, and within their widths.
fn scalars_fit(
    alloc: Global,
    scalars: &List<(Text, u128)>,
    ports: &List<(Text, u8)>,
) -> Result<bool, NoMemory>
    ensures { IfOk result (λ fit. IsTrue fit ↔
        (SameNames (names scalars.now) (names ports.now) × (in_range scalars.now ports.now ≡ true))) }
{
    let same = same_names(alloc, scalars, ports)?;
    Ok(same && are_in_range(scalars, ports))
}

fn are_in_range(scalars: &List<(Text, u128)>, ports: &List<(Text, u8)>) -> bool
    ensures { result ≡ in_range scalars.now ports.now }
{
    for (name, width) in ports.as_slice() {
        if !is_in_range(scalars, name, *width) {
            return false;
        }
    }
    true
}

// Whether the scalars of this name are below two to the power of the width.
fn is_in_range(scalars: &List<(Text, u128)>, name: &Text, width: u8) -> bool
    ensures { result ≡ all_below scalars.now name.now width }
{
    for (scalar, value) in scalars.as_slice() {
        if !is_other_or_below(scalar, *value, name, width) {
            return false;
        }
    }
    true
}

fn is_other_or_below(scalar: &Text, value: u128, name: &Text, width: u8) -> bool
    ensures { result ≡ not (bytes_eq scalar.now name.now && not (nat_lt value (2 ^ width))) }
{
    !(scalar == name && !is_below(value, width))
}
