// The first port that is none of a top module that can be run.
ghost use Rattle.std.specs.Prelude.{◌≡◌, ◌<◌, ◌+◌, None, Some, length, map, take, slice_get, IfSome, IfNone};
ghost use Rattle.rtl_ir.specs.Ports.{Shape, port_view, ports_of};
ghost use Rattle.top_ports.specs.Shapes.{IsTop, IsFirstWrong};
ghost use Rattle.top_ports.specs.Stages.{Stands, run, start};

use crate::role::{port_name, port_role};
use crate::stage::{Stage, next_stage};
use rtl_ir::Module;

/// The stage behind the port at a place, where it may stand there.
fn stage_behind<'a>(top: &'a Module, place: usize, stage: Stage<'a>) -> Option<Stage<'a>>
    requires within { place < length top.now.ports }
    requires stands { Stands top.now place stage }
    ensures some { IfSome result (Stands top.now (place + 1)) }
    ensures none { IfNone result (run (Some start) (take (place + 1) (ports_of top.now)) ≡ None) }
{
    let role = port_role(top, top.ports.at(place))?;
    next_stage(top, place, stage, role)
}

/// The name of the first port of a module that, by name, direction and width, no top module that can
/// be run has after the ports before it; `done` where the ports end too early; `None` where the
/// module can be run.
///
/// The ports of such a module are `clk` and `reset` of 1 bit; of each kernel `hold$K` of 1 bit and
/// `ticks$K` of 48; of each scalar `scalar$K$A`, kernel by kernel; of each host input `in$X$data`,
/// `in$X$valid` and the output `in$X$ready`; of each host output `out$Y$data`, `out$Y$valid` and the
/// input `out$Y$ready`; and at last the output `done` of 1 bit.
pub fn first_wrong(top: &Module) -> Option<&[u8]>
    ensures wrong { IfSome result (λ name. IsFirstWrong (ports_of top.now) name.now) }
    ensures right { IfNone result ((s : Shape) × IsTop top.now s) }
{
    let mut stage = Stage::Start;
    for place in 0..top.ports.len() {
        match stage_behind(top, place, stage) {
            Some(behind) => stage = behind,
            None => return Some(port_name(top, top.ports.at(place))),
        }
    }
    match stage {
        Stage::Done => None,
        _ => Some(b"done"),
    }
}
