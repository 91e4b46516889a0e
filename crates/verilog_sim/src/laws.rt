// Laws of the size of a design, each the contract of a function that does nothing.
ghost use Rattle.std.specs.Prelude.{◌≡◌, ℕ, Some};
ghost use Rattle.rtl_ir.specs.declared.design.Design.{Design};
ghost use Rattle.rtl_ir.specs.declared.design.Module.{Module};
ghost use Rattle.rtl_ir.specs.Flat.{top_of};
ghost use Rattle.rtl_ir.specs.Formed.{IsFormed};
ghost use Rattle.verilog_sim.specs.Start.{all_cells};
ghost use Rattle.verilog_sim.specs.CellSums.{HasCells};

/// The cells of a design are those that its top module has with all its instances.
pub fn cells_by_instances()
    ensures has { (d : Design) (m : Module) → IsFormed d.modules → top_of d ≡ Some m
        → HasCells d m (all_cells d) }
    ensures only { (d : Design) (m : Module) (n : ℕ) → IsFormed d.modules → top_of d ≡ Some m
        → HasCells d m n → n ≡ all_cells d }
{}
