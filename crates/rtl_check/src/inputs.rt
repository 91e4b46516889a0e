// The inputs of a module from which there is a way to a port of it.
ghost use Rattle.std.specs.Prelude.{◌≡◌, ◌<◌, ◌^◌, ℕ, [], Some, length, slice_get, IfOk};
ghost use Rattle.rtl_check.specs.Paths.{AreJoined};
ghost use Rattle.rtl_check.specs.Picked.{HasSame};

use crate::many_inputs::{ManyInputs, shared};
use digraph::{Row, greatest};
use mx_base::{List as Items, NoMemory};
use rtl_ir::Instance;
use std::alloc::Global;
use std::marker::Model;
use std::rc::Rc;

/// The places of some inputs among the ports. A contract sees it as a list of them, in which one
/// may stand more than once.
#[derive(Drop)]
pub struct Inputs {
    kept: Kept,
}

/// How the places are kept.
#[derive(Drop)]
pub enum Kept {
    /// In a number each.
    Few(Items<usize>),
    /// In a bit each.
    Many(ManyInputs),
}

impl Model for Inputs {
    ghost use Rattle.std.specs.Prelude.{ℕ, List};
    ghost use Rattle.rtl_check.specs.Inputs.{inputs_of};

    ghost Value = { List ℕ };

    ghost view = { λ inputs. inputs_of inputs.kept };
}

impl Inputs {
    /// No input.
    pub fn none(alloc: Global) -> Self
        ensures { result ≡ [] }
    {
        Inputs {
            kept: Kept::Few(Items::new(alloc)),
        }
    }

    /// The inputs at these places, in the form that takes less memory.
    pub fn of(alloc: Global, places: Items<usize>) -> Result<Self, NoMemory>
        ensures { IfOk result (HasSame places) }
    {
        let most = greatest(places.as_slice());
        if places.len() <= most / 32 || most == usize::MAX {
            return Ok(Inputs {
                kept: Kept::Few(places),
            });
        }
        let inputs = ManyInputs::of(alloc, places.as_slice(), most + 1)?;
        Ok(Inputs {
            kept: Kept::Many(inputs),
        })
    }

    /// How many places stand in the list.
    pub fn len(&self) -> usize
        ensures { result ≡ length self.now }
    {
        match &self.kept {
            Kept::Few(places) => places.len(),
            Kept::Many(inputs) => inputs.end(),
        }
    }

    /// The nets that are joined to these inputs of an instance, of which `nets` are all.
    pub fn joined(
        &self,
        alloc: Global,
        instance: &Instance,
        nets: &Rc<Items<u32>>,
    ) -> Result<Row<u32>, NoMemory>
        requires within { (n p : ℕ) → slice_get self.now n ≡ Some p → p < length instance.now.nets }
        requires nets { nets.now.value ≡ instance.now.nets }
        requires small { (n a : ℕ) → slice_get nets.now.value n ≡ Some a → a < 2 ^ 32 }
        ensures { IfOk result (AreJoined instance.now self.now (length self.now)) }
    {
        match &self.kept {
            Kept::Few(places) => Ok(Row::own(joined_nets(alloc, instance, places.as_slice())?)),
            Kept::Many(inputs) => Ok(inputs.joined(nets)?),
        }
    }
}

/// The nets of all ports of an instance, as nodes of a graph.
pub fn all_nets(alloc: Global, instance: &Instance) -> Result<Rc<Items<u32>>, NoMemory>
    ensures nets { IfOk result (λ nets. nets.value ≡ instance.now.nets) }
    ensures small { IfOk result (λ nets. (n a : ℕ) → slice_get nets.value n ≡ Some a → a < 2 ^ 32) }
{
    let mut nets = Items::new(alloc);
    for place in 0..instance.nets.len() {
        nets.push(instance.nets.at(place).index() as u32)?;
    }
    shared(alloc, nets)
}

/// The nets that are joined to these ports of an instance.
fn joined_nets(alloc: Global, instance: &Instance, ports: &[usize]) -> Result<Items<u32>, NoMemory>
    requires { (n p : ℕ) → slice_get ports.now n ≡ Some p → p < length instance.now.nets }
    ensures { IfOk result (AreJoined instance.now ports.now (length ports.now)) }
{
    let mut nets = Items::new(alloc);
    for place in 0..ports.len() {
        let net = *instance.nets.at(ports[place]);
        nets.push(net.index() as u32)?;
    }
    Ok(nets)
}
