// The law, as the contract of a function that does nothing.
ghost use Rattle.std.specs.Prelude.{◌≡◌, ℕ, slice_get, Some};
ghost use Rattle.rtl_ir.specs.declared.design.Design.{Design};
ghost use Rattle.rtl_ir.specs.declared.design.Module.{Module};
ghost use Rattle.rtl_ir.specs.Flat.{AllContents};
ghost use Rattle.rtl_ir.specs.Ports.{Shape, HasShape, outer_of};
ghost use Rattle.rtl_ir.specs.Rules.{IsAccepted, AllHold};
ghost use Rattle.rtl_runs.specs.Stimuli.{Stimulus, IsFor};
ghost use Rattle.rtl_runs.specs.DrivenRun.{HasOneDrivenRun};

/// A module of an accepted design whose ports are those of a shape has one run under each list of
/// events, over all words, from contents that are words. It is the only one but for the words of
/// inputs that aren't valid, which may be any.
pub fn one_driven_run()
    ensures { (d : Design) → IsAccepted d
        → (number : ℕ) (m : Module) → slice_get d.modules number ≡ Some m
        → (s : Shape) → HasShape m s
        → (c : AllContents) → AllHold d m c
        → (x : Stimulus) → IsFor s x → HasOneDrivenRun d m (outer_of s m) c x }
{}
