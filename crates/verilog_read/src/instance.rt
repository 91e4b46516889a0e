// Instances of the modules before.
ghost use Rattle.std.specs.Prelude.{◌≡◌, ◌<◌, List, [], length, map, MatchResult, Some, IfOk, slice_get};
ghost use Rattle.rtl_ir.specs.declared.design.Module.{Module};
ghost use Rattle.rtl_text.specs.Tree.{Name, InstanceItem};
ghost use Rattle.verilog_syntax.specs.Trees.{connection_view, port_view, module_view};
ghost use Rattle.rtl_reading.specs.Uses.{Scope, item_uses, connection_uses, port_name};
ghost use Rattle.verilog_read.specs.Tables.{IsTable};
ghost use Rattle.verilog_read.specs.Built.{HasNets, IsPartOf};
ghost use Rattle.verilog_read.specs.Walk.{Gives, HasTables, AreEarlier};
ghost use Rattle.verilog_read.specs.Joined.{AreJoined, IsFree, IsTaken, IsMissing, Says, instance_uses, some_name};

use crate::builder::{next_number, text};
use crate::declared::Declared;
use crate::fault::Fault;
use crate::table::Table;
use mx_base::{List, NoMemory};
use rtl_ir::{Instance, ModuleId, NetId};
use std::alloc::Global;
use verilog_syntax::{Connection, ModuleTree, PortTree};

/// The modules before one, and their numbers by name.
#[derive(Clone, Copy)]
pub(crate) struct Earlier<'t, 'a> {
    pub(crate) trees: &'t [ModuleTree<'a>],
    pub(crate) numbers: &'t Table<'a>,
}

fn name_of<'a>(port: PortTree<'a>) -> &'a [u8]
    ensures { result.now ≡ port_name (port_view port.entry) }
{
    match port {
        PortTree::Input(_, name) => name,
        PortTree::Output(_, name) => name,
    }
}

/// The numbers of ports, by name.
fn port_numbers<'a>(alloc: Global, ports: &[PortTree<'a>]) -> Result<Table<'a>, NoMemory>
    ensures { IfOk result (λ t. IsTable t (map some_name (map port_name (map port_view ports.now)))) }
{
    let mut numbers = Table::new(alloc);
    for place in 0..ports.len() {
        numbers.declare(name_of(ports[place]), next_number(place)?)?;
    }
    Ok(numbers)
}

/// The place of a port that no connection has joined yet.
fn free_place<'a>(
    numbers: &Table<'a>,
    nets: &[Option<NetId>],
    port: &'a [u8],
) -> Result<usize, Fault<'a>>
    ensures within { IfOk result (λ k. k < length nets.now) }
    ensures free { (ports : List Name) → IsTable numbers.now (map some_name ports)
        → MatchResult result (λ k. IsFree ports nets.now port.now k) (λ f. Says f port.now × IsTaken ports nets.now port.now) }
{
    let Some(number) = numbers.number(port) else {
        return Err(Fault::Unknown(port));
    };
    let place = number as usize;
    if place < nets.len() && nets[place].is_none() {
        Ok(place)
    } else {
        Err(Fault::Unknown(port))
    }
}

/// The nets of ports all of which are joined to one.
fn all_joined<'a>(
    alloc: Global,
    ports: &[PortTree<'a>],
    nets: &[Option<NetId>],
) -> Result<List<NetId>, Fault<'a>>
    requires { length nets.now ≡ length ports.now }
    ensures { MatchResult result (λ all. nets.now ≡ map (λ n. Some n) all)
        (IsMissing (map port_name (map port_view ports.now)) nets.now) }
{
    let mut all = List::new(alloc);
    for place in 0..nets.len() {
        match nets[place] {
            Some(net) => all.push(net)?,
            None => return Err(Fault::Unknown(name_of(ports[place]))),
        }
    }
    Ok(all)
}

impl<'a> Declared<'a> {
    /// The net of each port that a connection joins to one.
    fn joined(
        &self,
        alloc: Global,
        ports: &[PortTree<'a>],
        connections: &[Connection<'a>],
    ) -> Result<Vec<Option<NetId>>, Fault<'a>>
        ensures size { IfOk result (λ nets. length nets.items ≡ length ports.now) }
        ensures joined { (sc : Scope) (m : Module) → HasNets sc m → HasTables m self.now
            → Gives result (connection_uses sc (map port_name (map port_view ports.now)) [] (map connection_view connections.now))
            (λ nets. AreJoined m (map port_name (map port_view ports.now)) (map connection_view connections.now) nets.items) }
    {
        let numbers = port_numbers(alloc, ports)?;
        let mut nets = vec![in alloc; None; ports.len()]?;
        for connection in connections {
            let place = free_place(&numbers, nets.as_slice(), connection.port)?;
            let net = self.net(connection.net)?;
            nets[place] = Some(net);
        }
        Ok(nets)
    }

    /// An instance of the module with this number and tree.
    fn instance_of(
        &self,
        alloc: Global,
        number: ModuleId,
        tree: &ModuleTree<'a>,
        name: &'a [u8],
        connections: &[Connection<'a>],
    ) -> Result<Instance, Fault<'a>>
        ensures { (sc : Scope) (m : Module) → HasNets sc m → HasTables m self.now
            → slice_get sc.modules number ≡ Some (module_view tree.now)
            → Gives result (instance_uses sc (map port_name (map port_view tree.now.ports)) (map connection_view connections.now))
            (IsPartOf sc.modules m (record { of = tree.now.name.now; name = name.now; connections = map connection_view connections.now })) }
    {
        let joined = self.joined(alloc, tree.ports.as_slice(), connections)?;
        let nets = all_joined(alloc, tree.ports.as_slice(), joined.as_slice())?;
        let name = text(alloc, name)?;
        Ok(Instance {
            module: number,
            name,
            nets,
        })
    }

    /// An instance of a module before.
    pub(crate) fn instance(
        &self,
        alloc: Global,
        earlier: Earlier<'_, 'a>,
        of: &'a [u8],
        name: &'a [u8],
        connections: &[Connection<'a>],
    ) -> Result<Instance, Fault<'a>>
        ensures { (sc : Scope) (m : Module) → AreEarlier earlier.entry sc.modules → HasNets sc m → HasTables m self.now
            → Gives result (item_uses sc (InstanceItem of.now name.now (map connection_view connections.now)))
            (IsPartOf sc.modules m (record { of = of.now; name = name.now; connections = map connection_view connections.now })) }
    {
        match earlier.numbers.number(of) {
            Some(number) => match earlier.trees.get(number as usize) {
                Some(tree) => {
                    let inner = ModuleId::new(number);
                    self.instance_of(alloc, inner, tree, name, connections)
                }
                None => Err(Fault::Unknown(of)),
            },
            None => Err(Fault::Unknown(of)),
        }
    }
}
