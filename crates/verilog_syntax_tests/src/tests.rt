use std::alloc::Global;
use verilog_syntax::{ParseError, ScanError, parse, scan};

// Of a text of fewer than 1000 bytes: the number of tokens and the place of the last one, or the place at which there is none.
fn outcome(alloc: Global, text: &[u8]) -> Result<(usize, u32), ScanError> {
    if text.len() >= 1000 {
        return Ok((0, 0));
    }
    let tokens = scan(alloc, text)?;
    Ok(match tokens.as_slice().last() {
        Some(last) => (tokens.len(), last.at),
        None => (0, 0),
    })
}

#[test]
fn texts_fall_into_tokens(rt: HostRuntime) {
    let cases: [(&[u8], Result<(usize, u32), ScanError>); 14] = [
        (b"", Ok((0, 0))),
        (b" \t\r\n\x0c", Ok((0, 0))),
        (b"1'h0g", Ok((2, 4))),
        (b"8w", Ok((2, 1))),
        (b"1 'h0", Err(ScanError::NoToken(2))),
        (b"1'H0", Err(ScanError::NoToken(1))),
        (b"1'h", Err(ScanError::NoToken(1))),
        (b"a<=b==c=d", Ok((7, 8))),
        (b"a // b */ c\nd", Ok((2, 12))),
        (b"a // b", Ok((1, 0))),
        (b"a /* b // */ c", Ok((2, 13))),
        (b"a /*/ b", Err(ScanError::NoToken(2))),
        (b"a/b", Ok((3, 2))),
        (b"in$x$data #", Err(ScanError::NoToken(10))),
    ];
    for (text, wanted) in cases {
        assert!(rt; outcome(rt.alloc(), text) == wanted);
    }
}

// The straight text of a kernel that doubles its words.
const DOUBLE: &[u8] = b"module top$project (
input wire [0:0] clk, input wire [0:0] reset,
input wire [0:0] hold$Double, input wire [47:0] ticks$Double,
input wire [7:0] in$x$data, input wire [0:0] in$x$valid, output wire [0:0] in$x$ready,
output wire [7:0] out$y$data, output wire [0:0] out$y$valid, input wire [0:0] out$y$ready,
output wire [0:0] done);
wire [0:0] w0;
assign w0 = ~hold$Double;
assign out$y$data = in$x$data + in$x$data;
assign out$y$valid = in$x$valid & w0;
assign in$x$ready = out$y$ready & w0;
assign done = 1'h0;
endmodule
";

// The number of modules, or the place of the fault; nothing where there are no tokens.
fn modules(alloc: Global, text: &[u8]) -> Result<usize, ParseError> {
    if text.len() >= 1000 {
        return Err(ParseError::NoMemory);
    }
    match scan(alloc, text) {
        Ok(tokens) => {
            let trees = parse(alloc, tokens.as_slice(), text.len() as u32)?;
            Ok(trees.len())
        }
        Err(_) => Ok(0),
    }
}

#[test]
fn texts_have_trees(rt: HostRuntime) {
    let cut = &DOUBLE[..DOUBLE.len() - "endmodule\n".len()];
    let cases: [(&[u8], Result<usize, ParseError>); 14] = [
        (DOUBLE, Ok(1)),
        (cut, Err(ParseError::Syntax(cut.len() as u32))),
        (b"module m(input wire [0:00] a); endmodule", Ok(1)),
        (
            b"module m(input wire [127:0] clk); endmodule module n(output wire [0:0] a); endmodule",
            Ok(2),
        ),
        (
            b"module m(input wire [128:0] a); endmodule",
            Err(ParseError::Syntax(21)),
        ),
        (
            b"module m(input wire [0:1] a); endmodule",
            Err(ParseError::Syntax(23)),
        ),
        (
            b"module end(input wire [0:0] a); endmodule",
            Err(ParseError::Syntax(7)),
        ),
        (
            b"module m(input wire [0:0] a); assign a = 2'h4; endmodule",
            Err(ParseError::Syntax(41)),
        ),
        (
            b"module m(input wire [0:0] a); assign a = 2'h3; assign b = c[3:1]; assign d = e[f]; endmodule",
            Ok(1),
        ),
        (
            b"module m(input wire [0:0] a); assign a = {129{b}}; endmodule",
            Err(ParseError::Syntax(42)),
        ),
        (
            b"module m(input wire [0:0] a); reg [7:0] r[0:268435455]; m i(.a(b)); endmodule",
            Ok(1),
        ),
        (
            b"module m(input wire [0:0] a); reg [7:0] r[0:268435456]; endmodule",
            Err(ParseError::Syntax(44)),
        ),
        (
            b"module m(input wire [0:0] a); always @(posedge clk) begin if (a) r <= b; if (a) r[b] <= c; end endmodule",
            Ok(1),
        ),
        (b"", Err(ParseError::Syntax(0))),
    ];
    for (text, wanted) in cases {
        assert!(rt; modules(rt.alloc(), text) == wanted);
    }
}
