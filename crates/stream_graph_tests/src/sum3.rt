// A kernel that adds up three neighbours of a stream.
ghost use Rattle.std.specs.Prelude.{◌≡◌, ◌+◌, ◌∷◌, [], OnOk, IfOk};
ghost use Rattle.fix_arith.specs.declared.types.StreamType.TheVariants.{UInt};
ghost use Rattle.fix_arith.specs.declared.types.RoundMode.TheVariants.{ToNearEven};
ghost use Rattle.mx_bits.specs.declared.op.Op.TheVariants.{Add};
ghost use Rattle.kernel_calls.specs.declared.call.Call.TheVariants.{Operation};
ghost use Rattle.kernel_calls.specs.Laws.{Received, HasRoom};
ghost use Rattle.stream_graph_tests.specs.Sum3.{sum3};

use fix_arith::{RoundMode, StreamType};
use mx_base::NoMemory;
use mx_bits::Op;
use std::alloc::Global;
use stream_graph::Builder;

/// Makes the kernel's calls.
pub fn make<B: Builder>(alloc: Global, builder: &mut B) -> Result<(), NoMemory>
    requires first { B.made builder.old ≡ 0 }
    requires room { HasRoom B.has_room B.receives builder.old sum3 }
    ensures { OnOk result (Received B.receives builder.old sum3 builder.new) }
{
    let t = StreamType::UInt(32);
    let x = builder.input(b"x", t, None);
    let before = builder.offset(x, -1, t);
    let two = add(alloc, builder, before, x)?;
    let after = builder.offset(x, 1, t);
    let three = add(alloc, builder, two, after)?;
    let _y = builder.output(b"y", three, None, t);
    Ok(())
}

// The sum of two streams.
fn add<B: Builder>(
    alloc: Global,
    builder: &mut B,
    left: B::Var,
    right: B::Var,
) -> Result<B::Var, NoMemory>
    requires { B.has_room builder.old (Operation Add ToNearEven 0 (B.Var.number left ∷ B.Var.number right ∷ []) (UInt 32)) }
    ensures call { OnOk result (B.receives builder.old (Operation Add ToNearEven 0 (B.Var.number left ∷ B.Var.number right ∷ []) (UInt 32)) builder.new) }
    ensures number { IfOk result (λ sum. B.Var.number sum ≡ B.made builder.old) }
    ensures count { OnOk result (B.made builder.new ≡ B.made builder.old + 1) }
{
    let mut operands = Vec::new(alloc);
    operands.push(left)?;
    operands.push(right)?;
    Ok(builder.operation(
        Op::Add,
        RoundMode::ToNearEven,
        0,
        operands.as_slice(),
        StreamType::UInt(32),
    ))
}
