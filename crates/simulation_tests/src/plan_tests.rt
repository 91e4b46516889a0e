// The plan of a run file whose lists stand in another order than the ports.
use mx_base::{List, NoMemory, Text};
use rtl_ir::{Interface, KernelPorts, NetId, ScalarPort, StreamPorts};
use simulation::{Plan, plan_of};
use std::alloc::{AllocError, Global};
use std::test::Fail;
use word_files::RunFile;

fn text(alloc: Global, bytes: &[u8]) -> Result<Text, AllocError> {
    Ok(Text::from_vec(bytes.to_vec(alloc)?))
}

// Two pairs, with these names.
fn pairs<T: Drop>(
    alloc: Global,
    names: (&[u8], &[u8]),
    values: (T, T),
) -> Result<List<(Text, T)>, NoMemory> {
    let mut list = List::new(alloc);
    list.push((text(alloc, names.0)?, values.0))?;
    list.push((text(alloc, names.1)?, values.1))?;
    Ok(list)
}

fn run_file(alloc: Global) -> Result<RunFile, NoMemory> {
    let inputs = (text(alloc, b"p.words")?, text(alloc, b"q.words")?);
    let outputs = (text(alloc, b"x.words")?, text(alloc, b"y.words")?);
    Ok(RunFile {
        ticks: pairs(alloc, (b"a", b"b"), (5, 7))?,
        scalars: pairs(alloc, (b"a.k", b"b.k"), (1, 0xff))?,
        inputs: pairs(alloc, (b"p", b"q"), inputs)?,
        outputs: pairs(alloc, (b"x", b"y"), outputs)?,
        edges: 12,
        pick: 3,
        fill: 9,
    })
}

// A kernel, whose nets don't matter here.
fn kernel(alloc: Global, name: &[u8]) -> Result<KernelPorts, NoMemory> {
    Ok(KernelPorts {
        name: text(alloc, name)?,
        hold: NetId::new(0),
        ticks: NetId::new(0),
    })
}

fn scalar(alloc: Global, kernel: &[u8], width: u8) -> Result<ScalarPort, NoMemory> {
    Ok(ScalarPort {
        kernel: text(alloc, kernel)?,
        name: text(alloc, b"k")?,
        width,
        net: NetId::new(0),
    })
}

fn stream(alloc: Global, name: &[u8], width: u8) -> Result<StreamPorts, NoMemory> {
    Ok(StreamPorts {
        name: text(alloc, name)?,
        width,
        word: NetId::new(0),
        valid: NetId::new(0),
        ready: NetId::new(0),
    })
}

fn both<T: Drop>(alloc: Global, first: T, second: T) -> Result<List<T>, NoMemory> {
    let mut list = List::new(alloc);
    list.push(first)?;
    list.push(second)?;
    Ok(list)
}

fn interface(alloc: Global) -> Result<Interface, NoMemory> {
    Ok(Interface {
        clock: NetId::new(0),
        reset: NetId::new(0),
        kernels: both(alloc, kernel(alloc, b"b")?, kernel(alloc, b"a")?)?,
        scalars: both(alloc, scalar(alloc, b"b", 8)?, scalar(alloc, b"a", 4)?)?,
        inputs: both(alloc, stream(alloc, b"q", 16)?, stream(alloc, b"p", 8)?)?,
        outputs: both(alloc, stream(alloc, b"y", 2)?, stream(alloc, b"x", 1)?)?,
        done: NetId::new(0),
    })
}

// The plan of the run file at the interface.
fn planned(alloc: Global) -> Result<Plan, Fail> {
    let run = run_file(alloc)?;
    let ports = interface(alloc)?;
    run.fit(alloc, &ports)?;
    Ok(plan_of(alloc, &run, &ports)?)
}

#[test]
fn a_plan_is_in_the_order_of_the_ports(rt: HostRuntime) -> Result<(), Fail> {
    let alloc = rt.alloc();
    let inputs = pairs(alloc, (b"q.words", b"p.words"), (16, 8))?;
    let outputs = pairs(alloc, (b"y.words", b"x.words"), (2, 1))?;
    let plan = planned(alloc)?;
    assert!(rt; plan.ticks.as_slice() == [7, 5].as_slice());
    assert!(rt; plan.scalars.as_slice() == [0xff, 1].as_slice());
    assert!(rt; plan.inputs == inputs);
    assert!(rt; plan.outputs == outputs);
    assert!(rt; (plan.edges, plan.pick, plan.fill) == (12, 3, 9));
    Ok(())
}
