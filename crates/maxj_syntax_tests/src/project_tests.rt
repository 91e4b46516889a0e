use maxj_syntax::{SourceError, parse};
use mx_base::{NoMemory, Text};
use std::alloc::Global;

// A source of classes with these names; the second of a pair tells a manager.
fn source_of(alloc: Global, heads: &[(&[u8], bool)]) -> Result<Text, NoMemory> {
    let mut source = Text::from_vec(Vec::new(alloc));
    for (name, manager) in heads {
        source.append(b"class ")?;
        source.append(*name)?;
        if *manager {
            source.append(b" extends CustomManager{")?;
            source.append(*name)?;
            source.append(b"(EngineParameters p){super(p);}}")?;
        } else {
            source.append(b" extends Kernel{")?;
            source.append(*name)?;
            source.append(b"(KernelParameters p){super(p);}}")?;
        }
    }
    Ok(source)
}

// Whether these classes are no project. Nothing where they are no source.
fn no_project(alloc: Global, heads: &[(&[u8], bool)]) -> Result<Option<bool>, NoMemory> {
    let source = source_of(alloc, heads)?;
    if source.len() >= 4000 {
        return Ok(None);
    }
    match parse(alloc, source.as_bytes()) {
        Ok(_program) => Ok(Some(false)),
        Err(SourceError::NoProject) => Ok(Some(true)),
        Err(SourceError::NoMemory) => Err(NoMemory),
        Err(_fault) => Ok(None),
    }
}

#[test]
fn classes_are_a_project(rt: HostRuntime) {
    let cases: [(&[(&[u8], bool)], Option<bool>); 12] = [
        (&[], None),
        (&[(b"A", false)], Some(false)),
        (&[(b"M", true)], Some(true)),
        (&[(b"A", false), (b"M", true)], Some(false)),
        (&[(b"M", true), (b"A", false)], Some(false)),
        (&[(b"A", false), (b"B", false)], Some(true)),
        (&[(b"A", false), (b"M", true), (b"AB", false)], Some(false)),
        (&[(b"M", true), (b"A", false), (b"N", true)], Some(true)),
        (&[(b"A", false), (b"A", true)], Some(true)),
        (&[(b"A", false), (b"A", false), (b"M", true)], Some(true)),
        (
            &[
                (b"A", false),
                (b"B", false),
                (b"M", true),
                (b"C", false),
                (b"A", false),
            ],
            Some(true),
        ),
        (
            &[
                (b"A", false),
                (b"B", false),
                (b"M", true),
                (b"C", false),
                (b"a", false),
            ],
            Some(false),
        ),
    ];
    for (heads, wanted) in cases {
        assert!(rt; no_project(rt.alloc(), heads) == Ok(wanted));
    }
}
