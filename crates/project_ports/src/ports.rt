// The ports of the design of a project.
ghost use Rattle.std.specs.Prelude.{◌≡◌, IfOk};
ghost use Rattle.project_rtl.specs.Shapes.{shape_of};
ghost use Rattle.rtl_ir.specs.Interfaces as Interfaces;
ghost use Rattle.rtl_ir.specs.Interfaces.{IsInterface};
ghost use Rattle.rtl_ir.specs.declared.design.Module.{Module};
ghost use Rattle.top_ports.specs.Shapes.{IsTop};

use manager_links::Project;
use mx_base::NoMemory;
use project_design::ports_alone;
use rtl_ir::Interface;
use std::alloc::Global;
use top_ports::interface;

/// The ports of the top module of a project's design: those of a module that has these ports and
/// nothing else.
pub fn project_ports(alloc: Global, project: &Project) -> Result<Interface, NoMemory>
    ensures shape { IfOk result (λ ports. Interfaces.shape_of ports ≡ shape_of project.now) }
    ensures is { IfOk result (λ ports.
        (alone : Module) × IsTop alone (shape_of project.now) × IsInterface alone ports) }
{
    let alone = ports_alone(alloc, project)?.finish();
    interface(alloc, &alone)
}
