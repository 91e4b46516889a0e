// The operands of an operation: streams, and numbers that become constants.
ghost use Rattle.std.specs.Prelude.{◌≡◌, ◌<◌, ◌≤◌, ◌+◌, ◌^◌, ◌++◌, ◌∷◌, [], length, OnOk};
ghost use Rattle.fix_arith.specs.Types.{HasWidth};
ghost use Rattle.kernel_meaning.specs.StreamRows as Rows;
ghost use Rattle.kernel_rows.specs.Fit.{IsFit, AreFit};
ghost use Rattle.kernel_rows.specs.Operation.{IsNext, operand_before, AreOperands};

use crate::literals::literal_bits;
use fix_arith::{RoundMode, StreamType, TypeError};
use kernel_calls::Call;
use kernel_meaning::{EvalError, Value};
use mx_base::{List, NoMemory};
use std::alloc::Global;

/// The operands of an operation, as nodes.
#[derive(Drop)]
pub struct Operands {
    /// The constants that numbers become, in their order.
    pub calls: List<Call>,
    /// The node of each operand.
    pub args: List<u32>,
    pub types: List<StreamType>,
    /// How many nodes were made, with these constants.
    pub made: u32,
}

impl Operands {
    fn add_node(&mut self, node: u32, of: StreamType) -> Result<(), NoMemory>
        ensures calls { self.new.calls ≡ self.old.calls }
        ensures args { OnOk result (self.new.args ≡ self.old.args ++ node ∷ []) }
        ensures types { OnOk result (self.new.types ≡ self.old.types ++ of ∷ []) }
        ensures made { self.new.made ≡ self.old.made }
    {
        self.args.push(node)?;
        self.types.push(of)
    }

    fn add_constant(&mut self, bits: u128, of: StreamType) -> Result<(), NoMemory>
        requires { self.old.made + 1 < 2 ^ 32 }
        ensures calls { OnOk result
            (self.new.calls ≡ self.old.calls ++ Call.Constant bits of ∷ []) }
        ensures args { OnOk result (self.new.args ≡ self.old.args ++ self.old.made ∷ []) }
        ensures types { OnOk result (self.new.types ≡ self.old.types ++ of ∷ []) }
        ensures made { OnOk result (self.new.made ≡ self.old.made + 1) }
    {
        self.calls.push(Call::Constant(bits, of))?;
        self.add_node(self.made, of)?;
        self.made += 1;
        Ok(())
    }

    // The constant of these bits is the next operand, or there is none.
    #[tactic(auto, using(crate::proofs::NextOperand::constant_before))]
    fn add_literal(
        &mut self,
        at: u32,
        bits: Result<u128, TypeError>,
        of: StreamType,
    ) -> Result<(), EvalError>
        requires { self.old.made + 1 < 2 ^ 32 }
        ensures next { IsNext at (Rows.literal_before bits self.old.made of)
            self.old self.new result }
        ensures made { OnOk result (self.new.made ≡ self.old.made + 1) }
    {
        match bits {
            Ok(bits) => Ok(self.add_constant(bits, of)?),
            Err(error) => Err(EvalError::Typing(at, error)),
        }
    }

    // The value is the next operand; a number is a constant of the type.
    #[tactic(auto, using(crate::proofs::NextOperand::node_before))]
    fn add(
        &mut self,
        at: u32,
        mode: RoundMode,
        of: StreamType,
        value: &Value,
    ) -> Result<(), EvalError>
        requires made { self.old.made + 1 < 2 ^ 32 }
        requires width { HasWidth of }
        requires fit { IsFit value.now }
        ensures next { IsNext at (operand_before mode of self.old.made value.now)
            self.old self.new result }
        ensures made { OnOk result (self.new.made ≤ self.old.made + 1) }
    {
        match value {
            Value::Stream { node, of, .. } => Ok(self.add_node(*node, *of)?),
            Value::Int(n) => {
                let size = u128::from(n.unsigned_abs());
                let bits = literal_bits(mode, *n < 0, size, 0, of);
                self.add_literal(at, bits, of)
            }
            Value::Literal {
                negative,
                digits,
                tens,
            } => {
                let bits = literal_bits(mode, *negative, *digits, *tens, of);
                self.add_literal(at, bits, of)
            }
            _ => Err(EvalError::Typing(at, TypeError::TypesDiffer)),
        }
    }
}

/// The operands that these values are, where so many nodes were made before; numbers are rounded by
/// the mode to constants of the type.
///
/// Its errors are `NoMemory`, `TypesDiffer` of a value that is no stream and no number, and
/// `NotForType` and `LiteralRange` of a number.
pub fn operands_of(
    alloc: Global,
    at: u32,
    mode: RoundMode,
    of: StreamType,
    made: u32,
    values: &[Value],
) -> Result<Operands, EvalError>
    requires made { made + length values.now + 1 < 2 ^ 32 }
    requires width { HasWidth of }
    requires fit { AreFit values.now }
    ensures { AreOperands at (Rows.operands_of mode of made values.now) result }
{
    let mut operands = Operands {
        calls: List::new(alloc),
        args: List::new(alloc),
        types: List::new(alloc),
        made,
    };
    for value in values {
        operands.add(at, mode, of, value)?;
    }
    Ok(operands)
}
