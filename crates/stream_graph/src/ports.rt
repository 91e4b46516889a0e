// That no two ports of one kind have one name.
ghost use Rattle.std.specs.Prelude.{◌≡◌, [], true, length, IfOk, OnOk, IfErr};
ghost use Rattle.stream_graph.specs.Graphs.{call_by, IsWithin};
ghost use Rattle.stream_graph.specs.Nodes.{name_by};
ghost use Rattle.stream_graph.specs.Met.{Meets};
ghost use Rattle.stream_graph.specs.Ports.{AllDiffer, SaysAgain};

use crate::names::{Names, PortNames};
use crate::row::Row;
use crate::{Graph, GraphError};
use mx_base::{NoMemory, Text};
use std::alloc::Global;

impl Graph {
    ghost use Rattle.stream_graph.specs.Received.{received};

    // The name of a port, and of another node no bytes.
    fn port_name(&self, row: Row) -> &[u8]
        requires { IsWithin (length self.now.bytes.items.items) (length self.now.operands.items.items) row }
        ensures { result.now ≡ name_by (call_by self.now.bytes.items.items self.now.operands.items.items row) }
    {
        match row {
            Row::Input(name, ..) | Row::Output(name, ..) | Row::Scalar(name, _) => {
                self.name_at(name)
            }
            _ => b"",
        }
    }

    // Meets the name of a port, and answers whether it is new among those of its kind.
    fn meet<'a>(&'a self, names: &mut PortNames<'a>, row: Row) -> Result<bool, NoMemory>
        requires { IsWithin (length self.now.bytes.items.items) (length self.now.operands.items.items) row }
        ensures { IfOk result (λ fresh. Meets names.old (call_by self.now.bytes.items.items self.now.operands.items.items row) names.new fresh) }
    {
        match row {
            Row::Input(name, ..) => names.inputs.meet(self.name_at(name)),
            Row::Output(name, ..) => names.outputs.meet(self.name_at(name)),
            Row::Scalar(name, _) => names.scalars.meet(self.name_at(name)),
            _ => Ok(true),
        }
    }

    /// Tests that no two ports of one kind have one name.
    pub(crate) fn ports_differ(&self, alloc: Global) -> Result<(), GraphError>
        ensures ok { OnOk result (AllDiffer [] (received self.now)) }
        ensures err { IfErr result (SaysAgain (received self.now)) }
    {
        let mut names = PortNames {
            inputs: Names::new(alloc),
            outputs: Names::new(alloc),
            scalars: Names::new(alloc),
        };
        for row in self.rows.as_slice() {
            if !self.meet(&mut names, *row)? {
                let name = self.port_name(*row).to_vec(alloc)?;
                return Err(GraphError::SamePort(Text::from_vec(name)));
            }
        }
        Ok(())
    }
}
