// The kernels that sources build.
ghost use Rattle.std.specs.Prelude.{◌≡◌, List, Some, false, slice_get, IsTrue};
ghost use Rattle.maxj_syntax.specs.declared.tree.Class.{Class};
ghost use Rattle.maxj_syntax.specs.Ranges.{AreInRange};
ghost use Rattle.maxj_syntax.specs.Tree.{ClassTree, ProgramIs};
ghost use Rattle.fix_arith.specs.Types.{HasWidth};
ghost use Rattle.kernel_eval.specs.Runs.{IsTyped};

use fix_arith::StreamType;
use kernel_calls::is_port_name;
use kernel_eval::{BuildError, build_kernel, line_of};
use kernel_meaning::Arg;
use maxj_syntax::{Program, parse};
use mx_base::{NoMemory, Text};
use std::alloc::Global;
use stream_graph::Kernel;

/// What the constructor of a class builds: its kernel, or the line of its refusal.
#[derive(Debug, Drop)]
pub enum Built {
    Kernel(Kernel),
    Refused(Vec<u8>),
}

/// What the constructor of the first class of a source builds, as a kernel of this name and without
/// arguments after the first one.
///
/// It is refused with an empty line where the bytes are no source.
pub fn build_alone(alloc: Global, source: &[u8], name: &[u8]) -> Result<Built, NoMemory> {
    if source.len() > u32::MAX as usize {
        return Ok(Built::Refused(Vec::new(alloc)));
    }
    match parse(alloc, source) {
        Ok(program) => build(alloc, &program, 0, &[], name),
        Err(_) => Ok(Built::Refused(Vec::new(alloc))),
    }
}

/// What the constructor of the class of this number builds with these arguments after the first one,
/// as a kernel of this name.
///
/// It is refused with an empty line where the class is none of a kernel, the name none, or a type
/// among the arguments none of words.
pub fn build(
    alloc: Global,
    program: &Program<'_>,
    class: u32,
    args: &[Arg],
    name: &[u8],
) -> Result<Built, NoMemory>
    requires read { (classes : List ClassTree) × ProgramIs program.now classes }
    requires numbers { AreInRange program.now.tree }
{
    if !is_kernel(program, class) {
        return Ok(Built::Refused(Vec::new(alloc)));
    }
    if !(is_port_name(name) && args.iter().all(is_typed)) {
        return Ok(Built::Refused(Vec::new(alloc)));
    }
    let kernel = Text::from_vec(name.to_vec(alloc)?);
    match build_kernel(alloc, program, class, args, kernel) {
        Ok(kernel) => Ok(Built::Kernel(kernel)),
        Err(BuildError::Eval(error)) => Ok(Built::Refused(line_of(alloc, error)?)),
        Err(BuildError::Graph(error)) => {
            let name = Text::from_vec(name.to_vec(alloc)?);
            Ok(Built::Refused(error.line(alloc, &name)?))
        }
    }
}

// Whether the class of this number is a kernel's.
fn is_kernel(program: &Program<'_>, class: u32) -> bool
    ensures { IsTrue result → (found : Class)
        × (slice_get program.now.classes class ≡ Some found) × (found.manager ≡ false) }
{
    match program.classes.get(class as usize) {
        Some(found) => !found.manager,
        None => false,
    }
}

// Whether an argument that is a type is one of words.
fn is_typed(arg: &Arg) -> bool
    ensures { IsTrue result → IsTyped arg.now }
{
    match arg {
        Arg::Stream(t) => is_of_words(*t),
        _ => true,
    }
}

// Whether the words of a type have 1 to 128 bits.
fn is_of_words(t: StreamType) -> bool
    ensures { IsTrue result → HasWidth t }
{
    match t {
        StreamType::UInt(width) | StreamType::Int(width) => (1..=128).contains(&width),
        StreamType::Fix { whole, frac, .. } => {
            (1..=128).contains(&(u16::from(whole) + u16::from(frac)))
        }
        StreamType::Bool => true,
    }
}
