// Tables, and why they are refused.
use latency_table::{Table, TableError};
use mx_base::{NoMemory, Text};
use mx_bits::Op;
use std::alloc::{AllocError, Global};
use std::test::Fail;

// What is said of a table: the line of its refusal, or nothing.
fn line_of(alloc: Global, table: &[u8]) -> Result<Vec<u8>, NoMemory> {
    match Table::read(alloc, table) {
        Ok(_) => Ok(Vec::new(alloc)),
        Err(error) => error.line(alloc),
    }
}

// Tables, and what is said of each.
const LINES: [(&str, &str); 30] = [
    ("[", "refused T1\n"),
    ("", "refused T1\n"),
    ("{\"add\":[[1,2]]", "refused T1\n"),
    ("[]", "refused T2 -\n"),
    ("{\"foo\":[]}", "refused T2 foo\n"),
    ("{\"shl\":[[1,0]]}", "refused T2 shl\n"),
    ("{\"Add\":[[1,0]]}", "refused T2 Add\n"),
    (
        "{\"xor\":[[1,0]],\"sub\":[1],\"sue\":[]}",
        "refused T2 sub\n",
    ),
    ("{\"add\":{}}", "refused T2 add\n"),
    ("{\"add\":[[1]]}", "refused T2 add\n"),
    ("{\"add\":[[1,2,3]]}", "refused T2 add\n"),
    ("{\"add\":[[1.0,2]]}", "refused T2 add\n"),
    ("{\"add\":[[1,-0]]}", "refused T2 add\n"),
    ("{\"add\":[[1,1e1]]}", "refused T2 add\n"),
    ("{\"add\":[[18446744073709551616,0]]}", "refused T2 add\n"),
    ("{\"add\":[[\"1\",0]]}", "refused T2 add\n"),
    ("{\"add\":[[1,70]],\"zzz\":[]}", "refused T2 zzz\n"),
    ("{\"add\":[[1,70]]}", "refused T3 add\n"),
    ("{\"add\":[[1,65]]}", "refused T3 add\n"),
    ("{\"add\":[[1,-1]]}", "refused T3 add\n"),
    ("{\"add\":[[0,1]]}", "refused T3 add\n"),
    ("{\"add\":[[129,1]]}", "refused T3 add\n"),
    ("{\"add\":[[-1,1]]}", "refused T3 add\n"),
    ("{\"add\":[[18446744073709551615,0]]}", "refused T3 add\n"),
    ("{\"add\":[[1,0],[1,0]]}", "refused T3 add\n"),
    ("{\"add\":[[2,0],[1,0]]}", "refused T3 add\n"),
    (
        "{\"sub\":[[1,99]],\"mux\":[[0,0]],\"neg\":[[0,0]]}",
        "refused T3 mux\n",
    ),
    ("{\"add\":[[1,70]],\"add\":[[1,0]]}", ""),
    ("{\"add\":[[1,64],[128,0]],\"round\":[]}", ""),
    ("{}", ""),
];

#[test]
fn faulty_tables_are_refused(rt: HostRuntime) -> Result<(), Fail> {
    for (table, line) in LINES {
        let said = line_of(rt.alloc(), table.as_bytes())?;
        assert!(rt; said.as_slice() == line.as_bytes(), "{table}");
    }
    Ok(())
}

// A table with rows of one operation, and the latencies at some widths.
const LATENCIES: [(u8, Option<u32>); 8] = [
    (1, None),
    (7, None),
    (8, Some(1)),
    (15, Some(1)),
    (16, Some(3)),
    (63, Some(3)),
    (64, Some(64)),
    (128, Some(64)),
];

#[test]
fn the_greatest_row_not_above_the_width_counts(rt: HostRuntime) -> Result<(), Fail> {
    let table = Table::read(
        rt.alloc(),
        b"{\"mul\":[[8,1],[16,3],[64,64]],\"ne\":[[1,2]]}",
    )?;
    for (width, latency) in LATENCIES {
        assert!(rt; table.latency(Op::Mul, width) == latency, "at {width}");
    }
    assert!(rt; table.latency(Op::Ne, 1) == Some(2));
    assert!(rt; table.latency(Op::Neg, 128) == None);
    assert!(rt; table.latency(Op::Shl, 1) == Some(0));
    assert!(rt; table.latency(Op::Shr, 128) == Some(0));
    assert!(rt; table.latency(Op::Cast, 8) == Some(0));
    Ok(())
}

// The names of operations beside those.
const NAMES: [(Op, &str); 17] = [
    (Op::Add, "add"),
    (Op::Sub, "sub"),
    (Op::Mul, "mul"),
    (Op::Div, "div"),
    (Op::Neg, "neg"),
    (Op::And, "and"),
    (Op::Or, "or"),
    (Op::Xor, "xor"),
    (Op::Not, "not"),
    (Op::Eq, "eq"),
    (Op::Ne, "ne"),
    (Op::Lt, "lt"),
    (Op::Le, "le"),
    (Op::Gt, "gt"),
    (Op::Ge, "ge"),
    (Op::Mux, "mux"),
    (Op::Round, "round"),
];

// Each table with the rows of one operation says the latencies of this one alone.
#[test]
fn a_key_names_its_operation(rt: HostRuntime) -> Result<(), Fail> {
    for (op, name) in NAMES {
        let text = format!(in rt.alloc(); "{{\"{name}\":[[1,5]]}}")?;
        let table = Table::read(rt.alloc(), text.as_bytes())?;
        for (other, _) in NAMES {
            let latency = if other == op { Some(5) } else { None };
            assert!(rt; table.latency(other, 9) == latency, "{name}");
        }
    }
    Ok(())
}
