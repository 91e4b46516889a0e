// Laws of the ports of top modules, each the contract of a function that does nothing.
ghost use Rattle.std.specs.Prelude.{◌≡◌};
ghost use Rattle.rtl_ir.specs.declared.design.Module.{Module};
ghost use Rattle.rtl_ir.specs.Ports.{Shape, ports_of};
ghost use Rattle.top_ports.specs.Shapes.{Name, IsTop, IsFirstWrong};

/// A module has the ports of at most one shape, and then none of its ports is a wrong one.
pub fn one_shape()
    ensures one { (m : Module) (s t : Shape) → IsTop m s → IsTop m t → s ≡ t }
    ensures right { (m : Module) (s : Shape) → IsTop m s → (name : Name) → IsFirstWrong (ports_of m) name → ⊥ }
{}
