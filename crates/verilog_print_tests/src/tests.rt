// A text that was written by hand is read, and printed as it was.
use std::test::Fail;
use verilog_print::print;
use verilog_read::read;

// Modules with every form of expression, with a register and a memory, with instances, and one that
// can be run.
const TEXT: &str = "// before
module forms (
input wire [0:0] clk,
input wire [0:0] reset,
input wire [3:0] a,
input wire [3:0] b,
input wire [127:0] wide,
output wire [3:0] y,
output wire [127:0] z);
wire [127:0] literal;
wire [3:0] not$a;
wire [3:0] difference;
wire [3:0] product;
wire [3:0] quotient;
wire [3:0] either;
wire [3:0] other;
wire [0:0] same;
wire [0:0] less;
wire [7:0] both;
wire [11:0] twelve;
wire [98:0] part;
assign y = a;
assign literal = 128'habc0123456789def;
assign not$a = ~a;
assign difference = a - b;
assign product = a * b;
assign quotient = a / b;
assign either = a | b;
assign other = a ^ b;
assign same = a == b;
assign less = a < b;
assign both = {a, b};
assign twelve = {12{clk}};
assign part = wide[107:9];
assign z = same ? literal : wide;
endmodule
module store (
input wire [0:0] clk,
input wire [0:0] reset,
input wire [0:0] go,
output wire [3:0] last);
wire [3:0] next;
reg [3:0] count;
reg [3:0] table [0:15];
assign next = table[count];
assign last = count;
always @(posedge clk) begin
if (go) count <= next;
if (go) table[count] <= next;
end
endmodule
module turn (
input wire [0:0] clk,
input wire [0:0] reset,
input wire [7:0] a,
output wire [7:0] b);
assign b = ~a;
endmodule
module twice (
input wire [0:0] clk,
input wire [0:0] reset,
input wire [7:0] x,
output wire [7:0] y);
wire [7:0] w0;
turn first (.clk(clk), .reset(reset), .a(x), .b(w0));
turn second (.clk(clk), .reset(reset), .a(w0), .b(y));
endmodule
module top$project (
input wire [0:0] clk,
input wire [0:0] reset,
input wire [0:0] hold$Double,
input wire [47:0] ticks$Double,
input wire [7:0] in$x$data,
input wire [0:0] in$x$valid,
output wire [0:0] in$x$ready,
output wire [7:0] out$y$data,
output wire [0:0] out$y$valid,
input wire [0:0] out$y$ready,
output wire [0:0] done);
wire [0:0] w0;
assign w0 = ~hold$Double;
assign out$y$data = in$x$data + in$x$data;
assign out$y$valid = in$x$valid & w0;
assign in$x$ready = out$y$ready & w0;
assign done = 1'h0;
endmodule
";

#[test]
fn a_text_that_was_read_is_printed(rt: HostRuntime) -> Result<(), Fail> {
    let alloc = rt.alloc();
    let Ok(design) = read(alloc, TEXT.as_bytes()) else {
        return Err("the text isn't read".into());
    };
    let mut text = b"// before\n".to_vec(alloc)?;
    print(alloc, &design, &mut text)?;
    assert!(rt; text.as_slice() == TEXT.as_bytes());
    Ok(())
}
