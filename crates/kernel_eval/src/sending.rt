// Calls that a builder receives, by the handles of the nodes that were made.
ghost use Rattle.std.specs.Prelude.{◌≡◌, ◌<◌, ◌^◌, ◌+◌, ◌++◌, ◌∷◌, [], length, map, All, IfOk, OnOk};
ghost use Rattle.std.specs.Option.{option_map};
ghost use Rattle.kernel_eval.specs.Sending.{AreNumbered, HasRoomBelow, MayName, IsSendable, AreSendable, IsTold, IsSent, AreSent};

use kernel_calls::Call;
use mx_base::{List, NoMemory};
use mx_bits::Word;
use std::alloc::{AllocError, Global};
use stream_graph::{Builder, Numbered};

// The handle of a number.
fn handle<V: Copy + Numbered>(vars: &[V], n: u32) -> V
    requires made { n < length vars.now }
    requires numbered { AreNumbered V.number vars.now }
    ensures { V.number result ≡ n }
{
    vars[n as usize]
}

// The handle of a number, where there is one.
fn handle_of<V: Copy + Numbered>(vars: &[V], n: Option<u32>) -> Option<V>
    requires made { MayName (length vars.now) n }
    requires numbered { AreNumbered V.number vars.now }
    ensures { option_map V.number result ≡ n }
{
    match n {
        Some(n) => Some(handle(vars, n)),
        None => None,
    }
}

// The handles of numbers.
fn handles<V: Copy + Numbered>(
    alloc: Global,
    vars: &[V],
    numbers: &[u32],
) -> Result<Vec<V>, AllocError>
    requires made { All (λ n. n < length vars.now) numbers.now }
    requires numbered { AreNumbered V.number vars.now }
    ensures { IfOk result (λ handles. map V.number handles.items ≡ numbers.now) }
{
    let mut handles = Vec::new(alloc);
    for n in numbers {
        handles.push(handle(vars, *n))?;
    }
    Ok(handles)
}

// The builder receives a call, and answers the handle of its node, where it makes one.
fn tell<B: Builder>(
    alloc: Global,
    builder: &mut B,
    vars: &[B::Var],
    call: &Call,
) -> Result<Option<B::Var>, AllocError>
    requires room { B.has_room builder.old call.now }
    requires sendable { IsSendable (length vars.now) call.now }
    requires numbered { AreNumbered B.Var.number vars.now }
    ensures { IfOk result (λ handle. IsTold B.receives B.made B.Var.number builder.old call.now builder.new handle) }
{
    match call {
        Call::Input(name, t, control) => {
            Ok(Some(builder.input(name.as_bytes(), *t, handle_of(vars, *control))))
        }
        Call::Output(name, value, control, t) => {
            let (value, control) = (handle(vars, *value), handle_of(vars, *control));
            Ok(Some(builder.output(name.as_bytes(), value, control, *t)))
        }
        Call::Scalar(name, t) => Ok(Some(builder.scalar(name.as_bytes(), *t))),
        Call::Constant(bits, t) => Ok(Some(builder.constant(Word::new(*bits, t.width()), *t))),
        Call::Operation(op, mode, amount, args, t) => {
            let args = handles(alloc, vars, args.as_slice())?;
            Ok(Some(builder.operation(*op, *mode, *amount, args.as_slice(), *t)))
        }
        Call::Offset(value, k, t) => Ok(Some(builder.offset(handle(vars, *value), *k, *t))),
        Call::Feed(t) => Ok(Some(builder.feed(*t))),
        Call::Connect(feed, value) => {
            builder.connect(handle(vars, *feed), handle(vars, *value));
            Ok(None)
        }
        Call::Hold(value, store, t) => {
            Ok(Some(builder.hold(handle(vars, *value), handle(vars, *store), *t)))
        }
        Call::Counter(digit) => Ok(Some(builder.counter(*digit))),
        Call::Chain => Ok(Some(builder.chain())),
        Call::ChainDigit(chain, digit) => {
            Ok(Some(builder.chain_digit(handle(vars, *chain), *digit)))
        }
    }
}

// The builder receives a call, whose node's handle comes last.
#[tactic(auto, using(crate::proofs::Sent::numbered_on))]
fn send<B: Builder>(
    alloc: Global,
    builder: &mut B,
    vars: &mut Vec<B::Var>,
    call: &Call,
) -> Result<(), NoMemory>
    requires room { B.made builder.old + 1 < 2 ^ 32 → B.has_room builder.old call.now }
    requires sendable { IsSendable (length vars.old.items) call.now }
    requires numbered { AreNumbered B.Var.number vars.old.items }
    requires made { B.made builder.old ≡ length vars.old.items }
    ensures { OnOk result (IsSent B.receives B.made B.Var.number builder.old call.now builder.new vars.old.items vars.new.items) }
{
    if vars.len() >= u32::MAX as usize {
        return Err(NoMemory);
    }
    if let Some(var) = tell(alloc, builder, vars.as_slice(), call)? {
        vars.push(var)?;
    }
    Ok(())
}

/// The builder receives the calls, one after another, and the handles of their nodes come last.
pub fn send_all<B: Builder>(
    alloc: Global,
    builder: &mut B,
    vars: &mut Vec<B::Var>,
    calls: &List<Call>,
) -> Result<(), NoMemory>
    requires room { HasRoomBelow B.made B.has_room B.receives builder.old calls.now }
    requires sendable { AreSendable (length vars.old.items) calls.now }
    requires numbered { AreNumbered B.Var.number vars.old.items }
    requires made { B.made builder.old ≡ length vars.old.items }
    ensures { OnOk result (AreSent B.receives B.made B.Var.number builder.old calls.now builder.new vars.old.items vars.new.items) }
{
    for call in calls.as_slice() {
        send(alloc, builder, vars, call)?;
    }
    Ok(())
}
