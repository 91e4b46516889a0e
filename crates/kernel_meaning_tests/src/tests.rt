// Bindings that are added, found by their names, set and left.
use kernel_meaning::{Base, Binding, Bindings, Declared, Value};
use mx_base::Text;
use std::alloc::{AllocError, Global};
use std::test::Fail;

const INT: Declared = Declared {
    base: Base::Int,
    rank: 0,
};

// A binding of a name, with a number.
fn bound(alloc: Global, name: &[u8], number: i32) -> Result<Binding, AllocError> {
    Ok(Binding {
        name: Text::from_vec(name.to_vec(alloc)?),
        of: INT,
        value: Value::Int(number),
    })
}

// The number that a name stands for.
fn number_of(bindings: &Bindings, name: &[u8]) -> Option<i32> {
    match &bindings.newest(name)?.value {
        Value::Int(number) => Some(*number),
        _ => None,
    }
}

// The newest of a name is found, and the one that it hid once it is dropped.
#[test]
fn names_are_found(rt: HostRuntime) -> Result<(), Fail> {
    let alloc = rt.alloc();
    let mut bindings = Bindings::new(alloc);
    for (name, number) in [(b"a", 0), (b"b", 1), (b"a", 2), (b"c", 3), (b"a", 4)] {
        bindings.push(alloc, bound(alloc, name, number)?)?;
    }
    if 4 < bindings.len() {
        bindings.set(4, Value::Int(9));
    }
    let rows = [
        (
            5,
            [(Some(4), Some(9)), (Some(1), Some(1)), (Some(3), Some(3))],
        ),
        (
            4,
            [(Some(2), Some(2)), (Some(1), Some(1)), (Some(3), Some(3))],
        ),
        (3, [(Some(2), Some(2)), (Some(1), Some(1)), (None, None)]),
        (2, [(Some(0), Some(0)), (Some(1), Some(1)), (None, None)]),
        (1, [(Some(0), Some(0)), (None, None), (None, None)]),
        (0, [(None, None), (None, None), (None, None)]),
    ];
    for (left, wanted) in rows {
        bindings.keep(left);
        assert!(rt; bindings.len() == left);
        for (name, (place, number)) in [b"a", b"b", b"c"].into_iter().zip(wanted) {
            assert!(rt; bindings.place(name) == place, "{left} left");
            assert!(rt; number_of(&bindings, name) == number, "{left} left");
        }
    }
    Ok(())
}
