// What feeds each net of a module, and the ways from its inputs to its outputs.
ghost use Rattle.std.specs.Prelude.{◌≡◌, ◌<◌, ◌≤◌, ◌++◌, ◌⊎◌, ◌^◌, ℕ, List, min, length, slice_get, slice_index, Some, vec_len, IfOk, OnOk};
ghost use Rattle.rtl_ir.specs.declared.design.Assign.{Assign};
ghost use Rattle.rtl_ir.specs.declared.design.Instance.{Instance};
ghost use Rattle.rtl_ir.specs.declared.design.Port.{Port};
ghost use Rattle.rtl_ir.specs.Operands.{reads};
ghost use Rattle.rtl_check.specs.Paths.{PortPath, HasPath, AreJoined, AreAmong, Adds, IsSmall};
ghost use Rattle.rtl_check.specs.Paths.{IsAssigned, IsPassed, IsParted, IsInRange, HasEdges};
ghost use Rattle.rtl_check.specs.Paths.{ArePaths, ArePlaces, ArePortsApart};
ghost use Rattle.digraph.specs.Graph.{Reads, IsGraph, Reaches};

use crate::inputs::{Inputs, all_nets};
use digraph::{Row, fan_in};
use mx_base::{List as Items, NoMemory};
use rtl_ir::{Expr, Instance, Module};
use std::alloc::Global;

/// For each port of a module, by its place, the inputs from which there is a way to it.
pub type PathTable = Items<Inputs>;

/// Adds the nets that an expression reads.
fn push_reads(alloc: Global, nets: &mut Items<u32>, expr: Expr) -> Result<(), NoMemory>
    ensures ok { OnOk result (nets.new ≡ nets.old ++ reads expr) }
    ensures small { (i n : ℕ) → slice_get (reads expr) i ≡ Some n → n < 2 ^ 32 }
{
    let operands = expr.operands(alloc);
    for net in operands.as_slice() {
        nets.push(net.index() as u32)?;
    }
    Ok(())
}

/// A graph of so many nodes without an edge.
fn no_edges(alloc: Global, nodes: usize) -> Result<Vec<Row<u32>>, NoMemory>
    ensures size { IfOk result (λ graph. vec_len graph ≡ nodes) }
    ensures none { IfOk result (λ graph. (a b : ℕ) → Reads graph.items b a → ⊥) }
{
    let mut graph = Vec::new(alloc);
    for _ in 0..nodes {
        graph.push(Row::own(Items::new(alloc)))?;
    }
    Ok(graph)
}

/// Adds an edge from each net that an assignment reads to its target.
fn add_assigns(alloc: Global, module: &Module, graph: &mut [Row<u32>]) -> Result<(), NoMemory>
    requires { (j : ℕ) (a : Assign) → slice_get module.now.assigns j ≡ Some a → a.target < 2 ^ 32
        → a.target < length graph.old }
    ensures added { OnOk result (Adds (IsAssigned module.now (length module.now.assigns)) graph.old graph.new) }
    ensures small { OnOk result (IsSmall graph.old → IsSmall graph.new) }
{
    for place in 0..module.assigns.len() {
        let assign = module.assigns.at(place);
        let mut reads = Items::new(alloc);
        push_reads(alloc, &mut reads, assign.expr)?;
        let number = assign.target.index();
        graph[number].join(alloc, Row::own(reads))?;
    }
    Ok(())
}

/// Adds an edge for each path of an instance's module.
fn add_paths(
    alloc: Global,
    instance: &Instance,
    table: &[Inputs],
    graph: &mut [Row<u32>],
) -> Result<(), NoMemory>
    requires inputs { (x : PortPath) → HasPath table.now x → x.input < length instance.now.nets }
    requires outputs { (x : PortPath) → HasPath table.now x → x.output < length instance.now.nets }
    requires nets { (j n : ℕ) → slice_get instance.now.nets j ≡ Some n → n < 2 ^ 32 → n < length graph.old }
    ensures added { OnOk result (Adds (IsPassed instance.now table.now (length table.now)) graph.old graph.new) }
    ensures small { OnOk result (IsSmall graph.old → IsSmall graph.new) }
{
    let nets = all_nets(alloc, instance)?;
    for output in 0..table.len() {
        let inputs = &table[output];
        if inputs.len() == 0 {
            continue;
        }
        let joined = inputs.joined(alloc, instance, &nets)?;
        let number = instance.nets.at(output).index();
        graph[number].join(alloc, joined)?;
    }
    Ok(())
}

/// Adds an edge for each path of each instance's module.
fn add_instances(
    alloc: Global,
    module: &Module,
    tables: &[PathTable],
    graph: &mut [Row<u32>],
) -> Result<(), NoMemory>
    requires earlier { (k : ℕ) (i : Instance) → slice_get module.now.instances k ≡ Some i
        → i.module < length tables.now }
    requires ports { (k : ℕ) (i : Instance) (table : List (List ℕ)) (x : PortPath)
        → slice_get module.now.instances k ≡ Some i → slice_get tables.now i.module ≡ Some table
        → HasPath table x → (x.input < length i.nets) × (x.output < length i.nets) }
    requires nets { (k j n : ℕ) (i : Instance) → slice_get module.now.instances k ≡ Some i
        → slice_get i.nets j ≡ Some n → n < 2 ^ 32 → n < length graph.old }
    ensures added { OnOk result
        (Adds (IsParted module.now tables.now (length module.now.instances)) graph.old graph.new) }
    ensures small { OnOk result (IsSmall graph.old → IsSmall graph.new) }
{
    for place in 0..module.instances.len() {
        let instance = module.instances.at(place);
        let number = instance.module.index();
        let table = tables[number].as_slice();
        add_paths(alloc, instance, table, graph)?;
    }
    Ok(())
}

/// Adds the edges of a module, from each net that has a part in another one to that one.
fn add_edges(
    alloc: Global,
    module: &Module,
    tables: &[PathTable],
    graph: &mut [Row<u32>],
) -> Result<(), NoMemory>
    requires assigns { (j : ℕ) (a : Assign) → slice_get module.now.assigns j ≡ Some a → a.target < 2 ^ 32
        → a.target < length graph.old }
    requires earlier { (k : ℕ) (i : Instance) → slice_get module.now.instances k ≡ Some i
        → i.module < length tables.now }
    requires ports { (k : ℕ) (i : Instance) (table : List (List ℕ)) (x : PortPath)
        → slice_get module.now.instances k ≡ Some i → slice_get tables.now i.module ≡ Some table
        → HasPath table x → (x.input < length i.nets) × (x.output < length i.nets) }
    requires nets { (k j n : ℕ) (i : Instance) → slice_get module.now.instances k ≡ Some i
        → slice_get i.nets j ≡ Some n → n < 2 ^ 32 → n < length graph.old }
    ensures added { OnOk result (Adds (λ a b. IsAssigned module.now (length module.now.assigns) a b
        ⊎ IsParted module.now tables.now (length module.now.instances) a b) graph.old graph.new) }
    ensures small { OnOk result (IsSmall graph.old → IsSmall graph.new) }
{
    add_assigns(alloc, module, graph)?;
    add_instances(alloc, module, tables, graph)?;
    Ok(())
}

/// For each net of a module the nets that feed it. A net past the 2^32 first ones feeds none and is fed
/// by none.
pub fn feeding(
    alloc: Global,
    module: &Module,
    tables: &[PathTable],
) -> Result<Vec<Row<u32>>, NoMemory>
    requires { IsInRange module.now tables.now }
    ensures { IfOk result (λ graph. HasEdges module.now tables.now graph.items) }
{
    let mut graph = no_edges(alloc, module.nets.len().min(1 << 32))?;
    add_edges(alloc, module, tables, graph.as_mut_slice())?;
    Ok(graph)
}

/// The places of the input ports, by net.
fn input_places(alloc: Global, module: &Module, nets: usize) -> Result<Vec<Option<usize>>, NoMemory>
    requires nets { (j : ℕ) (p : Port) → slice_get module.now.ports j ≡ Some p → p.net < 2 ^ 32 → p.net < nets }
    requires apart { ArePortsApart module.now }
    ensures size { IfOk result (λ places. vec_len places ≡ nets) }
    ensures places { IfOk result (λ places. ArePlaces module.now (length module.now.ports) places.items) }
{
    let mut places = vec![in alloc; None; nets]?;
    for input in 0..module.ports.len() {
        let port = module.ports.at(input);
        if port.output {
            continue;
        }
        let net = port.net.index();
        places[net] = Some(input);
    }
    Ok(places)
}

/// The places of the inputs among these nets.
fn inputs_among(
    alloc: Global,
    places: &[Option<usize>],
    nodes: &[u32],
) -> Result<Items<usize>, NoMemory>
    requires { (j : ℕ) → j < length nodes.now → slice_index nodes.now j < length places.now }
    ensures { IfOk result (AreAmong places.now nodes.now (length nodes.now)) }
{
    let mut inputs = Items::new(alloc);
    for place in 0..nodes.len() {
        match places[nodes[place] as usize] {
            Some(input) => inputs.push(input)?,
            None => {}
        }
    }
    Ok(inputs)
}

/// The paths of a module, by the graph of what feeds its nets.
pub fn port_paths(alloc: Global, module: &Module, graph: &[Row<u32>]) -> Result<PathTable, NoMemory>
    requires graph { IsGraph graph.now }
    requires nets { (j : ℕ) (p : Port) → slice_get module.now.ports j ≡ Some p → p.net < 2 ^ 32
        → p.net < length graph.now }
    requires apart { ArePortsApart module.now }
    ensures { IfOk result (ArePaths (Reaches graph.now) module.now (λ i o. Unit {0})) }
{
    let places = input_places(alloc, module, graph.len())?;
    let mut seen = vec![in alloc; 0; graph.len()]?;
    let mut table = Items::new(alloc);
    for output in 0..module.ports.len() {
        let port = module.ports.at(output);
        if !port.output {
            table.push(Inputs::none(alloc))?;
            continue;
        }
        let end = port.net.index() as u32;
        let nodes = fan_in(alloc, graph, seen.as_mut_slice(), output + 1, end)?;
        let inputs = inputs_among(alloc, places.as_slice(), nodes.as_slice())?;
        table.push(Inputs::of(alloc, inputs)?)?;
    }
    Ok(table)
}
