// Laws of modules that grow, each the contract of a function that does nothing.
ghost use Rattle.std.specs.Prelude.{◌≡◌, ◌≤◌, ℕ, List, length, Bool};
ghost use Rattle.rtl_ir.specs.declared.design.Design.{Design};
ghost use Rattle.rtl_ir.specs.declared.design.Module.{Module};
ghost use Rattle.rtl_ir.specs.Formed.{IsFormedModule};
ghost use Rattle.rtl_ir.specs.Rules.{IsSound as KeepsRules};
ghost use Rattle.rtl_build.specs.declared.signal.Signal.{Signal};
ghost use Rattle.rtl_build.specs.Wires.{empty};
ghost use Rattle.rtl_build.specs.Ports.{AddsPort};
ghost use Rattle.rtl_delays.specs.Extends.{Extends};
ghost use Rattle.rtl_delays.specs.Partial.{IsPartial, HasPortsAlone, IsFinished};

/// A module begins with its ports, and then keeps the rules of designs while it grows: each call
/// that `Extends` it has this for a field.
pub fn beginnings()
    ensures empty { (name : List ℕ) → HasPortsAlone (empty name) }
    ensures port { (old new : Module) (name : List ℕ) (width : ℕ) (output : Bool) (s : Signal)
        → HasPortsAlone old → 1 ≤ width → width ≤ 128
        → AddsPort old new name width output s → HasPortsAlone new }
{}

/// A finished module that kept the rules of designs while it grew is formed and keeps all of them,
/// in each design and after all modules that there are.
pub fn acceptance()
    ensures rules { (d : Design) (m : Module) → IsPartial m → IsFinished m → KeepsRules d m }
    ensures formed { (earlier : List Module) (m : Module)
        → IsPartial m → IsFinished m → IsFormedModule earlier m }
{}
