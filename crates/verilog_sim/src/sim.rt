// The simulator: a design, and what it holds between two edges.
ghost use Rattle.std.specs.Prelude.{◌≡◌, ℕ, ◌+◌, ◌^◌, ◌<◌, ◌≤◌, [], length, map, Some, slice_index, slice_set, IfOk, OnOk, IfErr};
ghost use Rattle.rtl_ir.specs.declared.design.Module.{Module};
ghost use Rattle.rtl_ir.specs.Value.{width_of};
ghost use Rattle.rtl_ir.specs.Flat.{top_of};
ghost use Rattle.rtl_ir.specs.Interfaces.{IsInterface, nets_of};
ghost use Rattle.rtl_ir.specs.Ports.{Shape, HasShape, outer_of};
ghost use Rattle.rtl_ir.specs.Rules.{IsAccepted, AllHold};
ghost use Rattle.verilog_sim.specs.State.{contents};
ghost use Rattle.verilog_sim.specs.Calls.{IsEdge, IsResetEdge, IsDone};
ghost use Rattle.verilog_sim.specs.Simulates.{AreOffered};
ghost use Rattle.verilog_sim.specs.Start.{all_cells, IsFilled, IsRefusal, filled};

use crate::cells::count_cells;
use crate::compile::Program;
use crate::evaluate::{is_done, step, tell};
use crate::flatten::flatten;
use crate::memory::Memory;
use crate::scope::Scope;
use crate::start::prepare;
use crate::stimulus::Stimulus;
use crate::values::Values;
use crate::{Event, Offer, SimError};
use mx_base::List;
use rtl_ir::{Design, Interface, NetId, Update};
use std::alloc::Global;
use std::marker::Model;

/// The greatest number of wires, registers and memory words of a design that is simulated.
const MOST_CELLS: u64 = 1 << 26;

/// A simulator of an accepted design.
///
/// A contract sees the design, the nets of its outer ports, the values of the ports that keep one
/// value, what the registers and memories hold, and the values of all nets in the last edge, those
/// of the top module and of each instance by its path. All values are unsigned and two-valued.
#[derive(Drop)]
pub struct Sim<'a> {
    design: &'a Design,
    interface: &'a Interface,
    program: Program,
    updates: List<Update>,
    scopes: Vec<Scope>,
    origins: Vec<NetId>,
    steady: Vec<u128>,
    memories: Vec<Memory>,
    /// The values of the last edge, each at the origin of its net.
    values: Values,
    /// The words that registers hold, from which `done` goes on.
    ahead: Values,
}

impl<'a> Model for Sim<'a> {
    ghost use Rattle.rtl_ir.specs.Flat.{top_of};
    ghost use Rattle.verilog_sim.specs.State.{State};

    ghost Value = { State };

    ghost use Rattle.verilog_sim.specs.Origins.{at_origins};
    ghost use Rattle.verilog_sim.specs.PartLists.{parts_of, values_of};
    ghost use Rattle.rtl_ir.specs.Interfaces.{nets_of};
    ghost use Rattle.verilog_sim.specs.Simulates.{Simulates};
    ghost use Rattle.verilog_sim.specs.Updates.{held_by};

    ghost view = { λ a. record {
      design = a.design.now;
      outer = nets_of a.interface.now;
      steady = a.steady.items;
      parts = parts_of (top_of a.design.now) a.scopes.items (held_by a.updates a.ahead) a.memories.items;
      last = values_of (top_of a.design.now) a.scopes.items (at_origins a.origins.items a.values);
    } };

    ghost invariant = { λ a. Simulates a.design.now a.interface.now a.program a.updates a.scopes.items
        a.origins.items a.steady.items a.ahead a.values a.memories.items };
}

impl<'a> Sim<'a> {
    /// A simulator of an accepted design, whose top module has these ports. Each register and each
    /// memory word holds the low bits of `fill`, and each port that keeps one value is 0.
    ///
    /// `TooManyCells` comes only where the design has more than 2^26 wires, registers and memory
    /// words, those of all its instances counted, and there is a simulator only where it has no more.
    /// `NoMemory` comes where there is no memory to count them, 8 bytes for a module, or for what the
    /// simulator holds: 16 bytes for a memory word, and some more for a net and for what gives it its
    /// value. Nothing is promised of the values of a last edge before the first one.
    pub fn new(
        alloc: Global,
        design: &'a Design,
        interface: &'a Interface,
        fill: u128,
    ) -> Result<Self, SimError>
        requires accepted { IsAccepted design.now }
        requires ports { (m : Module) × (top_of design.now ≡ Some m) × IsInterface m interface.now }
        ensures design { IfOk result (λ sim. sim.design ≡ design.now) }
        ensures nets { IfOk result (λ sim. sim.outer ≡ nets_of interface.now) }
        ensures outer { IfOk result (λ sim. (m : Module) (s : Shape) → top_of design.now ≡ Some m → HasShape m s → sim.outer ≡ outer_of s m) }
        ensures steady { IfOk result (λ sim. sim.steady ≡ map (λ n. 0) sim.outer.steady) }
        ensures filled { IfOk result (λ sim. (m : Module) → top_of design.now ≡ Some m → IsFilled m fill (contents sim [])) }
        ensures start { IfOk result (λ sim. (m : Module) → top_of design.now ≡ Some m → contents sim ≡ filled design.now m fill) }
        ensures words { IfOk result (λ sim. (m : Module) → top_of design.now ≡ Some m → AllHold design.now m (contents sim)) }
        ensures small { OnOk result (all_cells design.now ≤ 2 ^ 26) }
        ensures refusal { IfErr result (λ e. IsRefusal (all_cells design.now) e) }
    {
        let cells = count_cells(alloc, design)?;
        if cells > MOST_CELLS {
            return Err(SimError::TooManyCells(cells));
        }
        let flat = flatten(alloc, design)?;
        let prepared = prepare(alloc, flat.module, interface, fill)?;
        let start = prepared.start;
        Ok(Sim {
            design,
            interface,
            program: prepared.program,
            updates: prepared.updates,
            scopes: flat.scopes,
            origins: prepared.origins,
            steady: start.steady,
            memories: start.memories,
            values: start.values,
            ahead: start.ahead,
        })
    }

    /// Sets a port that keeps one value: the ticks of a kernel or a scalar, numbered in the order of
    /// the kernels and then of the scalars. Until it is set such a port is 0.
    pub fn set(&mut self, port: u32, value: u128)
        requires port { port < length self.old.steady }
        requires value { (m : Module) → top_of self.old.design ≡ Some m → value < 2 ^ width_of m (slice_index self.old.outer.steady port) }
        ensures { self.new ≡ record self.old { steady = slice_set self.old.steady port value } }
    {
        self.steady[port as usize] = value;
    }

    /// One edge with the port reset at 1 and all other inputs at 0, but for the ports that keep one
    /// value.
    pub fn reset(&mut self)
        ensures edge { (m : Module) → top_of self.old.design ≡ Some m → IsResetEdge m self.old self.new }
        ensures kept { self.new ≡ record self.old { parts = self.new.parts; last = self.new.last } }
    {
        let stimulus = Stimulus {
            reset: true,
            steady: self.steady.as_slice(),
            offers: &[],
            accepts: &[],
            holds: &[],
        };
        step(
            self.updates.as_slice(),
            self.interface,
            &self.program,
            &stimulus,
            &mut self.ahead,
            self.memories.as_mut_slice(),
            &mut self.values,
        );
    }

    /// Whether the port done is 1 while all inputs are 0, but for the ports that keep one value. The
    /// values of the last edge stay.
    pub fn done(&mut self) -> bool
        ensures done { (m : Module) → top_of self.old.design ≡ Some m → IsDone m self.old result }
        ensures kept { self.new ≡ self.old }
    {
        let stimulus = Stimulus {
            reset: false,
            steady: self.steady.as_slice(),
            offers: &[],
            accepts: &[],
            holds: &[],
        };
        is_done(
            self.interface,
            &self.program,
            &stimulus,
            self.memories.as_slice(),
            &mut self.ahead,
        )
    }

    /// One edge with the port reset at 0.
    ///
    /// `offers` has what stands at each host input, whose words have the widths of their ports,
    /// `accepts` whether each host output is ready, and `holds` whether each kernel is held. After
    /// the call `events` has what happened at each host stream, the inputs first.
    pub fn edge(&mut self, offers: &[Offer], accepts: &[bool], holds: &[bool], events: &mut [Event])
        requires offers { length offers.now ≡ length self.old.outer.inputs }
        requires accepts { length accepts.now ≡ length self.old.outer.outputs }
        requires holds { length holds.now ≡ length self.old.outer.holds }
        requires words { (m : Module) → top_of self.old.design ≡ Some m → AreOffered m self.old.outer offers.now }
        requires events { length events.old ≡ length self.old.outer.inputs + length self.old.outer.outputs }
        ensures edge { (m : Module) → top_of self.old.design ≡ Some m → IsEdge m offers.now accepts.now holds.now self.old self.new events.new }
        ensures kept { self.new ≡ record self.old { parts = self.new.parts; last = self.new.last } }
    {
        let stimulus = Stimulus {
            reset: false,
            steady: self.steady.as_slice(),
            offers,
            accepts,
            holds,
        };
        step(
            self.updates.as_slice(),
            self.interface,
            &self.program,
            &stimulus,
            &mut self.ahead,
            self.memories.as_mut_slice(),
            &mut self.values,
        );
        tell(self.interface, &self.values, events);
    }
}
