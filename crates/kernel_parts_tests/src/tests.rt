// What the modules have.
use crate::control::control_module;
use crate::delays::{element_module, register_module, ring_module};
use crate::settled::{settled, word};
use crate::stages::stages_module;
use rtl_ir::{Module, NetId};
use std::alloc::Global;
use std::test::Fail;

// The numbers of memories, and of registers and memories that are written.
fn stores(module: &Module) -> [usize; 2] {
    [module.mems.len(), module.updates.len()]
}

// The bits of all registers and memories.
fn stored_bits(module: &Module) -> u64 {
    let mut bits: u64 = 0;
    for net in module.nets.as_slice() {
        if net.reg {
            bits = bits.saturating_add(net.width as u64);
        }
    }
    for memory in module.mems.as_slice() {
        bits = bits.saturating_add((memory.width as u64).saturating_mul(memory.depth as u64));
    }
    bits
}

// Whether net `net` is a register of this name and width.
fn is_register(module: &Module, net: usize, name: &[u8], width: u8) -> bool {
    match module.nets.as_slice().get(net) {
        Some(it) => it.reg && it.width == width && it.name.as_bytes() == name,
        None => false,
    }
}

// Whether memory `memory` has this name and so many words of this width.
fn is_memory(module: &Module, memory: usize, name: &[u8], width: u8, depth: u32) -> bool {
    match module.mems.as_slice().get(memory) {
        Some(it) => it.width == width && it.depth == depth && it.name.as_bytes() == name,
        None => false,
    }
}

// Whether a net has an assignment.
fn is_driven(module: &Module, net: NetId) -> bool {
    module
        .assigns
        .as_slice()
        .iter()
        .any(|assign| assign.target == net)
}

#[test]
fn a_delay_of_one_advance_is_a_register(rt: HostRuntime) -> Result<(), Fail> {
    let module = register_module(rt.alloc())?;
    assert!(rt; stores(&module) == [0, 1]);
    assert!(rt; is_register(&module, 5, b"r5", 8));
    assert!(rt; stored_bits(&module) == 8);
    Ok(())
}

#[test]
fn a_delay_of_more_advances_is_a_ring(rt: HostRuntime) -> Result<(), Fail> {
    let module = ring_module(rt.alloc())?;
    assert!(rt; stores(&module) == [1, 2]);
    assert!(rt; is_register(&module, 5, b"r5", 3));
    assert!(rt; is_memory(&module, 0, b"m0", 8, 5));
    assert!(rt; stored_bits(&module) == 40 + 3);
    Ok(())
}

#[test]
fn elements_are_registers_and_rings(rt: HostRuntime) -> Result<(), Fail> {
    let module = element_module(rt.alloc())?;
    assert!(rt; stores(&module) == [1, 3]);
    assert!(rt; is_register(&module, 5, b"r5", 8));
    assert!(rt; is_register(&module, 6, b"r6", 3));
    assert!(rt; is_memory(&module, 0, b"m0", 8, 5));
    assert!(rt; stored_bits(&module) == 8 + 40 + 3);
    Ok(())
}

// A latency of 1, 5 advances behind it, and 3: a register, a ring of 5 words and one of 3.
#[test]
fn words_wait_behind_their_pipelines(rt: HostRuntime) -> Result<(), Fail> {
    let made = stages_module(rt.alloc())?;
    let module = &made.module;
    assert!(rt; stores(module) == [2, 5]);
    assert!(rt; is_register(module, 5, b"r5", 8));
    assert!(rt; is_register(module, 6, b"r6", 3));
    assert!(rt; is_register(module, 8, b"r8", 2));
    assert!(rt; is_memory(module, 0, b"m0", 8, 5));
    assert!(rt; is_memory(module, 1, b"m1", 16, 3));
    assert!(rt; stored_bits(module) == 8 + 40 + 3 + 48 + 2);
    let shown = &made.shown;
    let (first, second) = (&shown[0], &shown[1]);
    assert!(rt; first.len() == 2 && second.len() == 1);
    let (one, six, three) = (*first.at(0), *first.at(1), *second.at(0));
    assert!(rt; [one.net().index(), six.net().index(), three.net().index()] == [5, 7, 9]);
    assert!(rt; [one.width, six.width, three.width] == [8, 8, 16]);
    Ok(())
}

// The position, which alone is stored, is net 10, after the ports; the outputs are nets 4, 7 and 9.
#[test]
fn a_control_tells_each_port(rt: HostRuntime) -> Result<(), Fail> {
    let module = control_module(rt.alloc())?;
    assert!(rt; stores(&module) == [0, 1]);
    assert!(rt; is_register(&module, 10, b"position", 48));
    assert!(rt; stored_bits(&module) == 48);
    for net in [4, 7, 9] {
        assert!(rt; is_driven(&module, NetId::new(net)), "net {net}");
    }
    for net in [0, 1, 2, 3, 5, 6, 8, 10] {
        assert!(rt; !is_driven(&module, NetId::new(net)), "net {net}");
    }
    Ok(())
}

// What the input and the output are told at position 2 of a run of 3 ticks, in which both are
// active, where the output has room: by the control of the input and by whether it has a word.
fn told(alloc: Global, enable: u128, valid: u128) -> Result<[u128; 2], Fail> {
    let module = control_module(alloc)?;
    let given = [0, 0, 3, 0, 0, enable, valid, 0, 1, 0, 2];
    let words = settled(alloc, &module, &given)?;
    Ok([word(&words, NetId::new(7)), word(&words, NetId::new(9))])
}

#[test]
fn an_input_is_waited_for_where_its_control_is_1(rt: HostRuntime) -> Result<(), Fail> {
    assert!(rt; told(rt.alloc(), 1, 0)? == [0, 0]);
    assert!(rt; told(rt.alloc(), 1, 1)? == [1, 1]);
    Ok(())
}

#[test]
fn an_input_is_neither_waited_for_nor_taken_where_its_control_is_0(
    rt: HostRuntime,
) -> Result<(), Fail> {
    assert!(rt; told(rt.alloc(), 0, 0)? == [0, 1]);
    assert!(rt; told(rt.alloc(), 0, 1)? == [0, 1]);
    Ok(())
}
