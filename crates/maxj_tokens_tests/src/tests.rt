use maxj_tokens::{Placed, ScanError, Sign, Token, scan};
use std::alloc::Global;

// Of a source of fewer than 1000 bytes: the number of tokens and the place of the last one, or the fault.
fn outcome(alloc: Global, text: &[u8]) -> Result<(usize, u32), ScanError> {
    if text.len() >= 1000 {
        return Ok((0, 0));
    }
    let tokens = scan(alloc, text)?;
    let count = tokens.len();
    Ok(match tokens.get(count.saturating_sub(1)) {
        Some(last) => (count, last.at),
        None => (0, 0),
    })
}

#[test]
fn sources_fall_into_tokens(rt: HostRuntime) {
    let cases: [(&[u8], Result<(usize, u32), ScanError>); 20] = [
        (b"", Ok((0, 0))),
        (b" \t\r\n\x0c", Ok((0, 0))),
        (b"a - -b", Ok((4, 5))),
        (b"a---b", Ok((4, 4))),
        (b"a<==b", Ok((3, 4))),
        (b"a<= =b", Ok((4, 5))),
        (b"a!===b", Ok((4, 5))),
        (b"a>>>=b", Ok((4, 5))),
        (b"0x1fL;", Ok((2, 5))),
        (b"0L 00.5 1.5 9l", Ok((4, 12))),
        (b"1.5.2", Ok((3, 4))),
        (b"1.x", Ok((3, 2))),
        (b"a.length[0]", Ok((6, 10))),
        (b"import a.*;", Ok((5, 10))),
        (b"\"a b\"\"\"c", Ok((3, 7))),
        (b"a // b */ \xff\nd", Ok((2, 12))),
        (b"a // b\rc", Ok((1, 0))),
        (b"a /* \x01 // */ c", Ok((2, 13))),
        (b"a/b*/**/c", Ok((5, 8))),
        (b"_a1$", Err(ScanError::NoToken(3))),
    ];
    for (text, wanted) in cases {
        assert!(rt; outcome(rt.alloc(), text) == wanted);
    }
}

#[test]
fn faults_have_places(rt: HostRuntime) {
    let cases: [(&[u8], Result<(usize, u32), ScanError>); 17] = [
        (b"a 01", Err(ScanError::NoToken(3))),
        (b"a 12b", Err(ScanError::NoToken(4))),
        (b"1.5e3", Err(ScanError::NoToken(3))),
        (b"0x", Err(ScanError::NoToken(1))),
        (b"0X1", Err(ScanError::NoToken(1))),
        (b"0x1fLL", Err(ScanError::NoToken(5))),
        (b"1_000", Err(ScanError::NoToken(1))),
        (b"a # \xff", Err(ScanError::NoToken(2))),
        (b"a \xff #", Err(ScanError::StrayByte(2))),
        (b"a \x7f", Err(ScanError::StrayByte(2))),
        (b"1\x0b", Err(ScanError::StrayByte(1))),
        (b"a ~\x80", Err(ScanError::StrayByte(3))),
        (b"a /* \xff", Err(ScanError::NoToken(2))),
        (b"a /*/ b", Err(ScanError::NoToken(2))),
        (b"a \"bc", Err(ScanError::NoToken(2))),
        (b"a \"b\\n\"", Err(ScanError::NoToken(2))),
        (b"a \"b\tc\"", Err(ScanError::NoToken(2))),
    ];
    for (text, wanted) in cases {
        assert!(rt; outcome(rt.alloc(), text) == wanted);
    }
}

// Whether the token is this sign.
fn is_sign(token: &Placed<'_>, wanted: Sign) -> bool {
    match token.token {
        Token::Sign(sign) => sign == wanted,
        _ => false,
    }
}

#[test]
fn signs_are_told_apart(rt: HostRuntime) {
    let cases: [(&[u8], Sign); 12] = [
        (b"<", Sign::Less),
        (b"<=", Sign::LessEqual),
        (b"<==", Sign::Connect),
        (b"<<", Sign::ShiftLeft),
        (b"=", Sign::Assign),
        (b"==", Sign::Equal),
        (b"===", Sign::Same),
        (b"!==", Sign::NotSame),
        (b"++", Sign::PlusPlus),
        (b"-=", Sign::MinusAssign),
        (b"||", Sign::OrOr),
        (b"/", Sign::Slash),
    ];
    for (text, wanted) in cases {
        let found = match scan(rt.alloc(), text) {
            Ok(tokens) => match tokens.get(0) {
                Some(token) => is_sign(&token, wanted),
                None => false,
            },
            Err(_) => false,
        };
        assert!(rt; found);
    }
}
