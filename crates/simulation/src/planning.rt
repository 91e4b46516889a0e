// The plan of a run file.
ghost use Rattle.std.specs.Prelude.{◌≡◌, ℕ, Some, map, IfOk};
ghost use Rattle.std.specs.BTreeMap.{get_by};
ghost use Rattle.std.specs.Cmp.Lexicographic.{slice_cmp};
ghost use Rattle.std.specs.Option.{option_copied};
ghost use Rattle.std.specs.Ordering.{nat_cmp};
ghost use Rattle.serde_json.specs.Data.{Data};
ghost use Rattle.mx_base.specs.Files.{Name};
ghost use Rattle.rtl_ir.specs.declared.design.Design.{Design};
ghost use Rattle.rtl_ir.specs.declared.design.Module.{Module};
ghost use Rattle.rtl_ir.specs.Flat.{top_of};
ghost use Rattle.rtl_ir.specs.Ports.{Shape};
ghost use Rattle.rtl_ir.specs.Rules.{AllDiffer, IsAccepted};
ghost use Rattle.rtl_ir.specs.declared.interface.StreamPorts.{StreamPorts};
ghost use Rattle.rtl_ir.specs.Interfaces.{shape_of};
ghost use Rattle.top_ports.specs.Shapes.{IsTop};
ghost use Rattle.word_files.specs.RunFiles.{names, SameNames, IsRunFile, TicksFit, ScalarsFit, InputsFit, OutputsFit};
ghost use Rattle.simulation.specs.Plans.{look_up, IsPlanOf, FitsShape, AreApart};

use crate::plan::Plan;
use mx_base::{List, NoMemory, Text};
use rtl_ir::{Interface, KernelPorts, StreamPorts};
use std::alloc::Global;
use std::collections::BTreeMap;
use word_files::{RunFile, scalar_names};

/// What a run file that fits the ports of a design hands to a run of it, in the order of the ports.
pub fn plan_of(alloc: Global, run: &RunFile, ports: &Interface) -> Result<Plan, NoMemory>
    requires ticks { TicksFit run.now ports.now }
    requires scalars { ScalarsFit run.now ports.now }
    requires inputs { InputsFit run.now ports.now }
    requires outputs { OutputsFit run.now ports.now }
    ensures plan { IfOk result (λ plan. IsPlanOf run.now ports.now plan) }
    ensures fits { (d : Data) → IsRunFile d run.now → IfOk result (λ plan. FitsShape plan (shape_of ports.now)) }
    ensures apart { (d : Data) → IsRunFile d run.now → AllDiffer (map (λ (y : Name
        × ℕ). y.0) (shape_of ports.now).outputs) → IfOk result (λ plan. AreApart plan) }
{
    let scalars = scalar_names(alloc, ports)?;
    Ok(Plan {
        ticks: values(alloc, &run.ticks, &ports.kernels)?,
        scalars: values(alloc, &run.scalars, &scalars)?,
        inputs: files(alloc, &run.inputs, &ports.inputs)?,
        outputs: files(alloc, &run.outputs, &ports.outputs)?,
        edges: run.edges,
        pick: run.pick,
        fill: run.fill,
    })
}

/// The host outputs of an accepted design have different names.
pub fn outputs_differ()
    ensures { (d : Design) (m : Module) (s : Shape) → IsAccepted d → top_of d ≡ Some m → IsTop m s → AllDiffer (map (λ (y : Name × ℕ). y.0) s.outputs) }
{}

/// What has a name.
trait Named: Sized {
    ghost name_of: { Self → Name };

    fn name(&self) -> &[u8]
        ensures { result.now ≡ name_of self.now };
}

impl Named for KernelPorts {
    ghost name_of = { λ k. k.name };

    fn name(&self) -> &[u8] {
        self.name.as_bytes()
    }
}

impl<T> Named for (Text, T) {
    ghost name_of = { λ t. t.0 };

    fn name(&self) -> &[u8] {
        self.0.as_bytes()
    }
}

// The value of each port, by its name.
fn values<T: Copy, P: Named>(
    alloc: Global,
    list: &List<(Text, T)>,
    ports: &List<P>,
) -> Result<List<T>, NoMemory>
    requires { SameNames (names list.now) (map P.name_of ports.now) }
    ensures { IfOk result (λ values. map (λ x. Some x) values ≡ map (λ p. look_up list.now (P.name_of p)) ports.now) }
{
    let named = by_name(alloc, list)?;
    let mut values = List::new(alloc);
    for port in ports.as_slice() {
        values.push(*named[port.name()])?;
    }
    Ok(values)
}

// The file of each stream, by its name, with the width of its words.
fn files(
    alloc: Global,
    list: &List<(Text, Text)>,
    streams: &List<StreamPorts>,
) -> Result<List<(Text, u8)>, NoMemory>
    requires { SameNames (names list.now) (map (λ (s : StreamPorts). s.name) streams.now) }
    ensures names { IfOk result (λ files. map (λ (f : Name × ℕ). Some f.0) files ≡ map (λ (s : StreamPorts). look_up list.now s.name) streams.now) }
    ensures widths { IfOk result (λ files. map (λ (f : Name × ℕ). f.1) files ≡ map (λ (s : StreamPorts). s.width) streams.now) }
{
    let named = by_name(alloc, list)?;
    let mut files = List::new(alloc);
    for stream in streams.as_slice() {
        files.push((named[stream.name.as_bytes()].copy(alloc)?, stream.width))?;
    }
    Ok(files)
}

// The values of a list by their names. The first pair of a name counts, so the pairs are put in from
// the last one on.
fn by_name<'a, T>(
    alloc: Global,
    list: &'a List<(Text, T)>,
) -> Result<BTreeMap<&'a [u8], &'a T>, NoMemory>
    ensures { (name : Name) → IfOk result (λ named. option_copied (get_by (λ k. slice_cmp nat_cmp name k.now) named) ≡ look_up list.now name) }
{
    let mut named = BTreeMap::new(alloc);
    for (name, value) in list.as_slice().iter().rev() {
        named.insert(name.as_bytes(), value)?;
    }
    Ok(named)
}
