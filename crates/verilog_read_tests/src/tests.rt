use mx_base::{List, Text};
use rtl_ir::{Assign, Design, Expr, MemId, Module, NetId, RtlError, Target, Update};
use std::alloc::{AllocError, Global};
use std::process::Abort;
use verilog_read::{VerilogError, read};

// What a text should answer.
#[derive(Clone, Copy)]
enum Wanted<'a> {
    // One module with so many nets and assignments.
    Read(usize, usize),
    NoToken(u32),
    Syntax(u32),
    Unknown(&'a [u8]),
    SameName(&'a [u8]),
    TwoDrivers(&'a [u8]),
    NoDriver(&'a [u8]),
    Width(&'a [u8]),
    Loop(&'a [u8], &'a [u8]),
    PortShape(&'a [u8]),
}

fn has_size(design: &Design, nets: usize, assigns: usize) -> bool {
    match design.modules.get(0) {
        Some(module) => {
            design.modules.len() == 1
                && module.nets.len() == nets
                && module.assigns.len() == assigns
        }
        None => false,
    }
}

fn are(names: &List<Text>, first: &[u8], second: &[u8]) -> bool {
    names.len() == 2 && names.at(0).is(first) && names.at(1).is(second)
}

fn breaks(rule: &RtlError, wanted: Wanted<'_>) -> bool {
    match (rule, wanted) {
        (RtlError::Unknown(name), Wanted::Unknown(wanted)) => name.is(wanted),
        (RtlError::SameName(name), Wanted::SameName(wanted)) => name.is(wanted),
        (RtlError::TwoDrivers(name), Wanted::TwoDrivers(wanted)) => name.is(wanted),
        (RtlError::NoDriver(name), Wanted::NoDriver(wanted)) => name.is(wanted),
        (RtlError::Width(name), Wanted::Width(wanted)) => name.is(wanted),
        (RtlError::CombLoop(names), Wanted::Loop(first, second)) => are(names, first, second),
        _ => false,
    }
}

// Whether a text of fewer than 2000 bytes answers what it should.
fn answers(alloc: Global, text: &[u8], wanted: Wanted<'_>) -> bool {
    if text.len() >= 2000 {
        return false;
    }
    match (&read(alloc, text), wanted) {
        (Ok(design), Wanted::Read(nets, assigns)) => has_size(design, nets, assigns),
        (Err(VerilogError::NoToken(place)), Wanted::NoToken(wanted)) => *place == wanted,
        (Err(VerilogError::Syntax(place)), Wanted::Syntax(wanted)) => *place == wanted,
        (Err(VerilogError::Rtl(rule)), wanted) => breaks(rule, wanted),
        (Err(VerilogError::PortShape(name)), Wanted::PortShape(wanted)) => name.is(wanted),
        _ => false,
    }
}

const PORTS: &[u8] = b"module top$project (
input wire [0:0] clk, input wire [0:0] reset,
input wire [0:0] hold$Double, input wire [47:0] ticks$Double,
input wire [7:0] in$x$data, input wire [0:0] in$x$valid, output wire [0:0] in$x$ready,
output wire [7:0] out$y$data, output wire [0:0] out$y$valid, input wire [0:0] out$y$ready,
output wire [0:0] done);
";

const STREAMS: &[u8] = b"assign out$y$data = in$x$data + in$x$data;
assign out$y$valid = in$x$valid & w0;
assign in$x$ready = out$y$ready & w0;
";

const HELD: &[u8] = b"wire [0:0] w0;\nassign w0 = ~hold$Double;\n";

const DONE: &[u8] = b"assign done = 1'h0;\n";

const END: &[u8] = b"endmodule\n";

// A module with the ports, these items, the assignments of the streams, and these items.
fn module_of(alloc: Global, first: &[u8], last: &[u8]) -> Result<Vec<u8>, AllocError> {
    let mut text = Vec::new(alloc);
    text.extend_from_slice(PORTS)?;
    text.extend_from_slice(first)?;
    text.extend_from_slice(STREAMS)?;
    text.extend_from_slice(last)?;
    text.extend_from_slice(END)?;
    Ok(text)
}

fn module_answers(alloc: Global, first: &[u8], last: &[u8], wanted: Wanted<'_>) -> bool {
    match module_of(alloc, first, last) {
        Ok(text) => answers(alloc, text.as_slice(), wanted),
        Err(_) => false,
    }
}

#[test]
fn modules_with_items(rt: HostRuntime) {
    let cases: [(&[u8], &[u8], Wanted<'_>); 11] = [
        (HELD, DONE, Wanted::Read(12, 5)),
        (
            b"wire [0:0] w0;\nwire [0:0] w1;\nassign w0 = ~w1;\n",
            b"assign done = 1'h0;\nassign w1 = ~w0;\n",
            Wanted::Loop(b"w0", b"w1"),
        ),
        (
            HELD,
            b"assign done = in$x$data == in$x$valid;\n",
            Wanted::Width(b"done"),
        ),
        (
            b"wire [0:0] w0;\nassign w0 = ~hold$Single;\n",
            DONE,
            Wanted::Unknown(b"hold$Single"),
        ),
        (
            b"assign w0 = ~hold$Double;\nwire [0:0] w0;\n",
            DONE,
            Wanted::Unknown(b"w0"),
        ),
        (
            b"wire [0:0] w0;\nassign w0 = ~hold$Double;\nwire [0:0] w0;\n",
            DONE,
            Wanted::SameName(b"w0"),
        ),
        (HELD, b"", Wanted::NoDriver(b"done")),
        (
            HELD,
            b"assign done = 1'h0;\nassign done = w0;\n",
            Wanted::TwoDrivers(b"done"),
        ),
        (HELD, b"assign done = 1'h0\n", Wanted::Syntax(511)),
        (HELD, b"reg [0:0] done;\n", Wanted::SameName(b"done")),
        (
            HELD,
            b"assign done = 1'h0; // done\n# ",
            Wanted::NoToken(520),
        ),
    ];
    for (first, last, wanted) in cases {
        assert!(rt; module_answers(rt.alloc(), first, last, wanted));
    }
}

const CLOCKS: &[u8] =
    b"module top (input wire [0:0] clk, input wire [0:0] reset, output wire [0:0] done); assign done = 1'h0; endmodule";

#[test]
fn small_texts(rt: HostRuntime) {
    let cases: [(&[u8], Wanted<'_>); 9] = [
        (b"", Wanted::Syntax(0)),
        (b"module #", Wanted::NoToken(7)),
        (b"module module", Wanted::Syntax(7)),
        (b"; always", Wanted::Syntax(0)),
        (b"modules", Wanted::Syntax(0)),
        (CLOCKS, Wanted::PortShape(b"done")),
        (
            b"module top (input wire [0:0] clk, output wire [0:0] done); assign done = 1'h0; endmodule",
            Wanted::Unknown(b"reset"),
        ),
        (
            b"module top (output wire [0:0] clk, input wire [0:0] reset); assign clk = a; endmodule",
            Wanted::Unknown(b"clk"),
        ),
        (
            b"module top (input wire [0:0] clk, input wire [1:0] reset); endmodule",
            Wanted::Unknown(b"reset"),
        ),
    ];
    for (text, wanted) in cases {
        assert!(rt; answers(rt.alloc(), text, wanted));
    }
}

#[test]
fn last_line_cut_away(rt: HostRuntime) {
    match module_of(rt.alloc(), HELD, DONE) {
        Ok(text) => {
            let cut = text.len() - text.len().min(END.len());
            let rest = &text[..cut];
            assert!(rt; answers(rt.alloc(), rest, Wanted::Syntax(512)));
        }
        Err(_) => assert!(rt; false),
    }
}

const CELL: &[u8] =
    b"module cell (input wire [0:0] clk, input wire [0:0] reset, input wire [7:0] a, output wire [7:0] b);
reg [7:0] r; reg [7:0] m [0:15]; wire [0:0] en; wire [7:0] at;
assign en = 1'h1; assign at = m[a]; assign b = r;
always @(posedge clk) begin if (en) r <= at; if (en) m[a] <= r; end
endmodule
";

const OUTER: &[u8] =
    b"module top (input wire [0:0] clk, input wire [0:0] reset, input wire [7:0] x, output wire [7:0] y);
";

// A cell and a module with these items.
fn outer_text(alloc: Global, items: &[u8]) -> Result<Vec<u8>, AllocError> {
    let mut text = Vec::new(alloc);
    let pieces: [&[u8]; 4] = [CELL, OUTER, items, END];
    for piece in pieces {
        text.extend_from_slice(piece)?;
    }
    Ok(text)
}

#[test]
fn names_of_instances(rt: HostRuntime) {
    let cases: [(&[u8], &[u8]); 9] = [
        (
            b"cells c (.b(y), .clk(clk), .a(x), .reset(reset));",
            b"cells",
        ),
        (b"top c (.b(y), .clk(clk), .a(x), .reset(reset));", b"top"),
        (b"cell c (.b(y), .clk(clk), .q(x), .reset(reset));", b"q"),
        (b"cell c (.b(y), .clk(clk), .r(x), .reset(reset));", b"r"),
        (b"cell c (.b(y), .a(x), .a(x), .reset(reset));", b"a"),
        (b"cell c (.b(y), .a(x), .clk(z), .reset(q));", b"z"),
        (b"cell c (.b(y), .clk(clk), .reset(reset));", b"a"),
        (b"cell c (.clk(clk), .a(x));", b"reset"),
        (b"assign y = ~x; assign y = r;", b"r"),
    ];
    for (items, wanted) in cases {
        let wanted = Wanted::Unknown(wanted);
        match outer_text(rt.alloc(), items) {
            Ok(text) => assert!(rt; answers(rt.alloc(), text.as_slice(), wanted)),
            Err(_) => assert!(rt; false),
        }
    }
}

#[test]
fn names_of_kinds(rt: HostRuntime) {
    let cases: [(&[u8], &[u8]); 4] = [
        (
            b"module c (input wire [0:0] clk, input wire [0:0] reset); reg [7:0] m [0:3]; wire [7:0] w; assign w = ~m; endmodule",
            b"m",
        ),
        (
            b"module c (input wire [0:0] clk, input wire [0:0] reset); wire [7:0] w; assign w = w[reset]; endmodule",
            b"w",
        ),
        (
            b"module c (input wire [0:0] clk, input wire [0:0] reset); wire [0:0] w; always @(posedge clk) begin if (clk) w <= v; end endmodule",
            b"w",
        ),
        (
            b"module c (input wire [0:0] clk, input wire [0:0] reset, input wire \
                [0:0] a, input wire [0:0] a); endmodule module d (input wire [0:\
                0] clk, input wire [0:0] reset); c i (.clk(clk), .reset(reset), \
                .a(clk)); endmodule",
            b"a",
        ),
    ];
    for (text, wanted) in cases {
        assert!(rt; answers(rt.alloc(), text, Wanted::Unknown(wanted)));
    }
}

// A cell, and a design that can be run, in which it stands once.
const JOINED: &[u8] =
    b"module cell (input wire [0:0] clk, input wire [0:0] reset, input wire [7:0] a, output wire [7:0] b);
reg [7:0] r; reg [7:0] m [0:15]; wire [0:0] en; wire [7:0] at;
assign en = 1'h1; assign at = m[a]; assign b = r;
always @(posedge clk) begin if (en) r <= at; if (en) m[a] <= r; end
endmodule
module top (input wire [0:0] clk, input wire [0:0] reset, input wire [0:0] hold$K, input wire [47:0] ticks$K, output wire [0:0] done);
wire [7:0] x; wire [7:0] y; assign x = 8'h2a; assign done = 1'h0;
cell c (.b(y), .clk(clk), .a(x), .reset(reset));
endmodule
";

fn has_cell(rt: &impl Abort, cell: &Module) {
    assert!(rt; cell.nets.len() == 7);
    assert!(rt; cell.mems.len() == 1);
    for (place, net, expr) in [
        (1, 6, Expr::Cell(MemId::new(0), NetId::new(2))),
        (2, 3, Expr::Net(NetId::new(4))),
    ] {
        let assign = Assign {
            target: NetId::new(net),
            expr,
        };
        assert!(rt; cell.assigns.as_slice().get(place) == Some(&assign));
    }
    for (place, target, value) in [
        (0, Target::Reg(NetId::new(4)), 6),
        (1, Target::Cell(MemId::new(0), NetId::new(2)), 4),
    ] {
        let update = Update {
            enable: NetId::new(5),
            target,
            value: NetId::new(value),
        };
        assert!(rt; cell.updates.as_slice().get(place) == Some(&update));
    }
}

#[test]
fn an_instance_joins_its_ports_in_any_order(rt: HostRuntime) {
    match read(rt.alloc(), JOINED) {
        Ok(design) => match (design.modules.get(0), design.modules.get(1)) {
            (Some(cell), Some(top)) => {
                has_cell(&rt, cell);
                match top.instances.get(0) {
                    Some(instance) => {
                        assert!(rt; instance.module.index() == 0);
                        assert!(rt; instance.name.is(b"c"));
                        for (place, net) in [(0, 0), (1, 1), (2, 5), (3, 6)] {
                            assert!(rt;
                                instance.nets.as_slice().get(place) == Some(&NetId::new(net))
                            );
                        }
                    }
                    None => assert!(rt; false),
                }
            }
            _ => assert!(rt; false),
        },
        Err(_) => assert!(rt; false),
    }
}
