// Where the ports of the top module begin.
ghost use Rattle.std.specs.Prelude.{◌≡◌};
ghost use Rattle.project_rtl.specs.Shapes.{port_count};
ghost use Rattle.project_design.specs.Building.{ArePlaces};

use manager_links::Project;

/// The numbers of the first ports of the scalars and of the streams from the host and to it, and of
/// `done`.
#[derive(Clone, Copy, PartialEq, Eq)]
pub(crate) struct Places {
    pub scalars: u32,
    pub inputs: u32,
    pub outputs: u32,
    pub done: u32,
}

impl Places {
    /// The places of a project whose design has so many ports.
    pub(crate) fn of(project: &Project, ports: usize) -> Self
        requires { ports ≡ port_count project.now }
        ensures { ArePlaces project.now result }
    {
        let done = ports as u32 - 1;
        let outputs = done - 3 * project.outputs().len() as u32;
        Places {
            scalars: 2 + 2 * project.kernels().len() as u32,
            inputs: outputs - 3 * project.inputs().len() as u32,
            outputs,
            done,
        }
    }
}
