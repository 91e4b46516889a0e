// What the modules of kernels store, summed from the texts.
use crate::kernel_sources::{ACC, KEPT, LONG, NEST, SLOW, SUM3};
use crate::kernel_tests::compiled;
use crate::tests::{IMMEDIATE, text};
use mx_base::read_whole;
use rtl_ir::{Design, Module};
use std::alloc::Global;
use std::process::Abort;
use std::test::Fail;
use verilog_read::read;

// The bits of the registers and memories of a module.
fn bits_of(module: &Module) -> u64 {
    let mut bits = 0_u64;
    for net in module.nets.as_slice() {
        if net.reg {
            bits = bits.wrapping_add(u64::from(net.width));
        }
    }
    for mem in module.mems.as_slice() {
        bits = bits.wrapping_add(u64::from(mem.width).wrapping_mul(u64::from(mem.depth)));
    }
    bits
}

// Those of the module of this name.
fn bits_in(design: &Design, name: &[u8]) -> Option<u64> {
    for module in design.modules.as_slice() {
        if module.name.is(name) {
            return Some(bits_of(module));
        }
    }
    None
}

// A kernel with a latency table, what `compile` says, and the bits that its module stores.
#[derive(Clone, Copy)]
struct Stored<'a> {
    source: &'a [u8],
    table: &'a [u8],
    said: &'a [u8],
    module: &'a [u8],
    bits: u64,
}

// The text of the kernel.
fn text_of(rt: &impl Abort, alloc: Global, stored: &Stored<'_>) -> Result<Vec<u8>, Fail> {
    let name = text(alloc, b"text")?;
    let mut files = compiled(rt, alloc, stored.source, stored.table, stored.said)?;
    Ok(read_whole(alloc, &mut files, &name, 100_000)?)
}

fn expect(rt: &impl Abort, alloc: Global, stored: &Stored<'_>) -> Result<(), Fail> {
    let held = text_of(rt, alloc, stored)?;
    assert!(rt; held.len() <= 100_000);
    match read(alloc, held.as_slice()) {
        Ok(design) => assert!(rt; bits_in(&design, stored.module) == Some(stored.bits)),
        Err(_) => assert!(rt; false, "the text isn't read"),
    }
    Ok(())
}

#[test]
fn modules_store_fifos_latencies_the_position_and_states(rt: HostRuntime) -> Result<(), Fail> {
    for stored in [
        // 32 bits of FIFOs, 64 of the registers behind the two sums, and 48 of the position
        Stored {
            source: SUM3,
            table: SLOW,
            said: b"kernel Sum3 fifo 32\n",
            module: b"kernel$Sum3",
            bits: 144,
        },
        // 320,000 bits of FIFOs, 16 of the pointer of the ring that holds them, and 48 of the position
        Stored {
            source: LONG,
            table: IMMEDIATE,
            said: b"kernel Long fifo 320000\n",
            module: b"kernel$Long",
            bits: 320_064,
        },
        // 32 bits of the register behind the sum, 48 of the position, and 32 of the counter
        Stored {
            source: ACC,
            table: SLOW,
            said: b"kernel Acc fifo 0\n",
            module: b"kernel$Acc",
            bits: 112,
        },
        // 48 bits of the position, 8 of the word that is kept, and 2 of the counter
        Stored {
            source: KEPT,
            table: IMMEDIATE,
            said: b"kernel Kept fifo 0\n",
            module: b"kernel$Kept",
            bits: 58,
        },
        // 48 bits of the position, and 1 and 2 of the counters of the chain
        Stored {
            source: NEST,
            table: IMMEDIATE,
            said: b"kernel Nest fifo 0\n",
            module: b"kernel$Nest",
            bits: 51,
        },
    ] {
        expect(&rt, rt.alloc(), &stored)?;
    }
    Ok(())
}
