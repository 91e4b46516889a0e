// Laws of runs, each the contract of a function that does nothing.
ghost use Rattle.std.specs.Prelude.{◌≡◌, ◌<◌, ◌≤◌, ◌^◌, ◌+◌, ℕ, List, length, Some};
ghost use Rattle.mx_base.specs.Files.{Held};
ghost use Rattle.rtl_ir.specs.declared.design.Design.{Design};
ghost use Rattle.rtl_ir.specs.declared.design.Module.{Module};
ghost use Rattle.rtl_ir.specs.Flat.{Families, top_of};
ghost use Rattle.rtl_ir.specs.Ports.{Shape, HasShape};
ghost use Rattle.rtl_ir.specs.Rules.{IsAccepted};
ghost use Rattle.stall_source.specs.Stalls.{IsDecided};
ghost use Rattle.simulation.specs.Ends.{End, Ends};
ghost use Rattle.simulation.specs.Plans.{FitsShape, setup_of};
ghost use Rattle.simulation.specs.declared.plan.Plan.{Plan};

use stall_source::Pattern;

/// A run of an accepted design ends in one way alone: its pattern, its files and its plan decide it.
pub fn one_end<G: Fn(u64, u64, u32) -> bool>(stalls: &Pattern<G>)
    requires { IsDecided (G.post stalls.now.test) }
    ensures { (d : Design) (m : Module) (s : Shape) (p : Plan) (held : Held)
        → IsAccepted d → top_of d ≡ Some m → HasShape m s → FitsShape p s
        → p.pick < 2 ^ 64 → p.edges < 2 ^ 64 → length s.inputs + length s.outputs + length s.kernels ≤ 2 ^ 32
        → (r q : Families) (vs ws : List Families) (a b : End)
        → Ends (G.post stalls.now.test) (setup_of d m s p held) r vs a → Ends (G.post stalls.now.test) (setup_of d m s p held) q ws b → a ≡ b }
{}
