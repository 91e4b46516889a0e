use maxj_tokens::{ScanError, first_excess, first_outside, scan};
use mx_base::Text;
use std::alloc::Global;

fn outside(alloc: Global, text: &[u8]) -> Result<Option<u32>, ScanError> {
    if text.len() >= 1000 {
        return Ok(None);
    }
    let tokens = scan(alloc, text)?;
    Ok(first_outside(&tokens))
}

#[test]
fn numbers_within_the_profile(rt: HostRuntime) {
    let cases: [(&[u8], Option<u32>); 20] = [
        (b"340282366920938463463374607431768211455", None),
        (b"x 340282366920938463463374607431768211456", Some(2)),
        (b"340282366920938463463374607431768211455L", None),
        (b"340282366920938463463374607431768211456l", Some(0)),
        (b"999999999999999999999999999999999999999", Some(0)),
        (b"1000000000000000000000000000000000000000", Some(0)),
        (b"0xffffffffffffffffffffffffffffffff", None),
        (b"0xFFFFFFFFFFFFFFFFFFFFFFFFFFFFFFFFl", None),
        (b"0x100000000000000000000000000000000", Some(0)),
        (b"0x100000000000000000000000000000000L", Some(0)),
        (
            b"0x00000000000000000000000000000000000000000000000000f",
            None,
        ),
        (b"0x0ffffffffffffffffffffffffffffffff", None),
        (b"0x0fffffffffffffffffffffffffffffffff", Some(0)),
        (b"0", None),
        (b"123456789012345.123456789012345", None),
        (b"123456789012345.1234567890123456", Some(0)),
        (b"0.12345678901234567890123456789", None),
        (b"a = 00.12345678901234567890123456789;", Some(4)),
        (b"\"340282366920938463463374607431768211456\"", None),
        (b"/* 340282366920938463463374607431768211456 */", None),
    ];
    for (text, wanted) in cases {
        assert!(rt; outside(rt.alloc(), text) == Ok(wanted));
    }
}

#[test]
fn words_within_the_profile(rt: HostRuntime) {
    let words: [&[u8]; 28] = [
        b"break",
        b"continue",
        b"do",
        b"switch",
        b"case",
        b"default",
        b"try",
        b"catch",
        b"finally",
        b"throw",
        b"throws",
        b"interface",
        b"enum",
        b"implements",
        b"abstract",
        b"synchronized",
        b"instanceof",
        b"double",
        b"float",
        b"long",
        b"byte",
        b"short",
        b"char",
        b"null",
        b"volatile",
        b"native",
        b"assert",
        b"goto",
    ];
    for word in words {
        assert!(rt; outside(rt.alloc(), word) == Ok(Some(0)));
    }
    let cases: [(&[u8], Option<u32>); 6] = [
        (b"int boolean while super this", None),
        (b"Break breaks _do double_ dob", None),
        (b"x // goto\n\"null\"", None),
        (b"a.do", Some(2)),
        (b"for x null goto", Some(6)),
        (b"1.5 long 340282366920938463463374607431768211456", Some(4)),
    ];
    for (text, wanted) in cases {
        assert!(rt; outside(rt.alloc(), text) == Ok(wanted));
    }
}

// The first excess of a source that is these pieces, each so many times.
fn excess(alloc: Global, pieces: &[(&[u8], usize)]) -> Result<Option<u32>, ScanError> {
    let mut text = Text::from_vec(Vec::new(alloc));
    for (piece, times) in pieces {
        for _done in 0..*times {
            text.append(*piece)?;
        }
    }
    if text.len() >= 100000 {
        return Ok(None);
    }
    let tokens = scan(alloc, text.as_bytes())?;
    Ok(first_excess(&tokens))
}

#[test]
fn tokens_stand_too_deep_or_too_far(rt: HostRuntime) {
    let cases: [(&[(&[u8], usize)], Option<u32>); 18] = [
        (&[(b"(", 200), (b"a", 1)], None),
        (&[(b"(", 201), (b"a", 1)], Some(200)),
        (&[(b"[", 201), (b"a", 1)], Some(200)),
        (&[(b"{", 201), (b"a", 1)], Some(200)),
        (&[(b"{[(", 67), (b")", 9)], Some(200)),
        (&[(b"(", 200), (b"]", 1), (b"{", 1)], None),
        (&[(b"(", 200), (b"}", 1), (b"[", 2)], Some(202)),
        (&[(b")", 3), (b"(", 203), (b"a", 1)], None),
        (&[(b")", 3), (b"(", 204), (b"a", 1)], Some(206)),
        (&[(b"\"((\"", 300)], None),
        (&[(b"{", 1), (b"a ", 2000), (b"}", 1)], None),
        (&[(b"{", 1), (b"a ", 2001), (b"}", 1)], Some(4003)),
        (&[(b";", 1), (b"a ", 2001), (b"{", 1)], Some(4003)),
        (&[(b"}", 1), (b"()", 1001), (b";", 1)], Some(2003)),
        (&[(b"a ", 2001), (b";", 1), (b"a ", 2000), (b";", 1)], None),
        (&[(b";", 1), (b"a ", 2001)], None),
        (&[(b";", 2), (b"a ", 1500), (b";", 1), (b"a ", 1500)], None),
        (&[(b";", 1), (b"a ", 2001), (b"{", 300)], Some(4003)),
    ];
    for (pieces, wanted) in cases {
        assert!(rt; excess(rt.alloc(), pieces) == Ok(wanted));
    }
}
