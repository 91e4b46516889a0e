// Rows of worked kernels, with the calls that an independent model gives for them.
ghost use Rattle.std.specs.Prelude.{◌≡◌, false};
ghost use Rattle.kernel_rows.specs.Kept.{IsKept};

use fix_arith::{RoundMode, StreamType};
use kernel_calls::Call;
use kernel_meaning::{Base, Bindings, Declared, EvalError, Plan, Row, Sign, Stack, State, Value};
use kernel_rows::{Done, combined, row_of, stepped};
use mx_base::List;
use mx_bits::Op;
use std::alloc::Global;
use std::test::Fail;

const COUNT: StreamType = StreamType::UInt(32);

// The state of a kernel with so many nodes, and with nothing besides.
fn state(alloc: Global, made: u32) -> State
    ensures { IsKept result }
{
    State {
        variables: Bindings::new(alloc),
        fields: Bindings::new(alloc),
        arrays: List::new(alloc),
        digits: Stack::new(alloc),
        modes: Stack::new(alloc),
        left: 1_000,
        made,
        plan: Plan {
            manager: false,
            kernels: List::new(alloc),
            from_cpu: List::new(alloc),
            to_cpu: List::new(alloc),
            joins: List::new(alloc),
        },
    }
}

fn stream(node: u32, of: StreamType) -> Value
    ensures { result ≡ Value.Stream node of false }
{
    Value::Stream {
        node,
        of,
        feed: false,
    }
}

// Whether a constant 0 is made, and then this operation on these nodes.
fn is_after_zero(done: &Done, op: Op, args: &[u32], of: StreamType) -> bool {
    let [
        Call::Constant(0, COUNT),
        Call::Operation(made, mode, 0, nodes, result),
    ] = done.calls.as_slice()
    else {
        return false;
    };
    *made == op && *mode == RoundMode::ToNearEven && nodes.as_slice() == args && *result == of
}

#[test]
fn count_is_compared_with_zero(rt: HostRuntime) -> Result<(), Fail> {
    let alloc = rt.alloc();
    let mut state = state(alloc, 3);
    let values = [stream(1, COUNT), Value::Int(0)];
    match row_of(
        alloc,
        Row::Binary(Sign::StreamEqual),
        7,
        &values,
        &mut state,
    ) {
        Ok(done) => assert!(rt; is_after_zero(&done, Op::Eq, &[1, 3], StreamType::Bool)),
        Err(_) => assert!(rt; false),
    }
    assert!(rt; state.made == 5);
    Ok(())
}

#[test]
fn zero_or_the_sum_is_chosen(rt: HostRuntime) -> Result<(), Fail> {
    let alloc = rt.alloc();
    let mut state = state(alloc, 5);
    let values = [stream(4, StreamType::Bool), Value::Int(0), stream(2, COUNT)];
    match row_of(alloc, Row::Choose, 7, &values, &mut state) {
        Ok(done) => assert!(rt; is_after_zero(&done, Op::Mux, &[4, 2, 5], COUNT)),
        Err(_) => assert!(rt; false),
    }
    assert!(rt; state.made == 7);
    Ok(())
}

#[test]
fn booleans_are_no_operands(rt: HostRuntime) -> Result<(), Fail> {
    let alloc = rt.alloc();
    let mut state = state(alloc, 3);
    let values = [stream(1, COUNT), Value::Flag(true)];
    match row_of(alloc, Row::Binary(Sign::Add), 7, &values, &mut state) {
        Ok(_) => assert!(rt; false),
        Err(error) => assert!(rt; error == EvalError::WrongKind(7)),
    }
    assert!(rt; state.made == 3);
    Ok(())
}

const INT: Declared = Declared {
    base: Base::Int,
    rank: 0,
};

#[test]
fn arrays_in_an_array_come_before_it(rt: HostRuntime) -> Result<(), Fail> {
    let alloc = rt.alloc();
    let mut state = state(alloc, 0);
    let sizes = [Value::Int(2), Value::Int(3)];
    match row_of(alloc, Row::NewArray(INT), 7, &sizes, &mut state) {
        Ok(done) => {
            let number = match done.value {
                Value::Array { number, of } => (number, of.rank),
                _ => (9, 9),
            };
            assert!(rt; number == (2, 1));
        }
        Err(_) => assert!(rt; false),
    }
    assert!(rt; state.left == 992);
    assert!(rt; state.arrays.len() == 3);
    let lengths = [
        state.arrays.get(0).map_or(9, |elements| elements.len()),
        state.arrays.get(1).map_or(9, |elements| elements.len()),
        state.arrays.get(2).map_or(9, |elements| elements.len()),
    ];
    assert!(rt; lengths == [3, 3, 2]);
    let inner = match state.arrays.get(2).and_then(|elements| elements.get(1)) {
        Some(Value::Array { number, of }) => (*number, of.rank),
        _ => (9, 9),
    };
    assert!(rt; inner == (1, 0));
    Ok(())
}

#[test]
fn an_array_without_elements_has_none_below(rt: HostRuntime) -> Result<(), Fail> {
    let alloc = rt.alloc();
    let mut state = state(alloc, 0);
    let sizes = [Value::Int(0), Value::Int(65_536), Value::Int(65_536)];
    assert!(rt; row_of(alloc, Row::NewArray(INT), 7, &sizes, &mut state).is_ok());
    assert!(rt; state.left == 1_000);
    assert!(rt; state.arrays.len() == 1);
    Ok(())
}

#[test]
fn arrays_of_too_many_elements_change_nothing(rt: HostRuntime) -> Result<(), Fail> {
    let alloc = rt.alloc();
    let mut state = state(alloc, 0);
    let sizes = [Value::Int(10), Value::Int(100)];
    match row_of(alloc, Row::NewArray(INT), 7, &sizes, &mut state) {
        Ok(_) => assert!(rt; false),
        Err(error) => assert!(rt; error == EvalError::StepLimit),
    }
    let sizes = [Value::Int(1), Value::Int(-1)];
    match row_of(alloc, Row::NewArray(INT), 7, &sizes, &mut state) {
        Ok(_) => assert!(rt; false),
        Err(error) => assert!(rt; error == EvalError::ArrayRange(7)),
    }
    assert!(rt; state.left == 1_000);
    assert!(rt; state.arrays.len() == 0);
    Ok(())
}

// The number that is given, or -1.
fn number(done: Result<Done, EvalError>) -> i32 {
    match done {
        Ok(done) => match done.value {
            Value::Int(n) => n,
            _ => -1,
        },
        Err(_) => -1,
    }
}

#[test]
fn numbers_are_assigned_with_an_operator(rt: HostRuntime) -> Result<(), Fail> {
    let alloc = rt.alloc();
    let mut state = state(alloc, 0);
    let values = [Value::Int(7), Value::Int(3)];
    let product = combined(alloc, b"*=", 5, &values, &mut state);
    assert!(rt; number(product) == 21);
    let more = stepped(alloc, b"++", 5, Value::Int(7), &mut state);
    assert!(rt; number(more) == 8);
    let fewer = stepped(alloc, b"--", 5, Value::Int(7), &mut state);
    assert!(rt; number(fewer) == 6);
    Ok(())
}
