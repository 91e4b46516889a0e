// Texts with registers, memories, instances and several modules: the words that leave, and refusals.
use crate::simulate_tests::{Case, HEAD, TWO_EDGES, expect};
use maxjc_core::Status;
use std::test::Fail;

// Two registers in a row, behind the input.
const ROW: &[u8] = b"wire [0:0] w1;
wire [0:0] w2;
reg [7:0] r1;
reg [7:0] r2;
assign w0 = ~hold$Double;
assign w1 = in$x$valid & out$y$ready;
assign w2 = w1 & w0;
assign out$y$data = r2;
assign out$y$valid = in$x$valid & w0;
assign in$x$ready = out$y$ready & w0;
assign done = 1'h0;
always @(posedge clk) begin
if (w2) r1 <= in$x$data;
if (w2) r2 <= r1;
end
endmodule
";

// A register, and two of them in a row.
const STAGES: &[u8] = b"module stage (
input wire [0:0] clk, input wire [0:0] reset, input wire [0:0] move, input wire [7:0] taken, output wire [7:0] given);
reg [7:0] held;
assign given = held;
always @(posedge clk) begin
if (move) held <= taken;
end
endmodule
module row (
input wire [0:0] clk, input wire [0:0] reset, input wire [0:0] move, input wire [7:0] taken, output wire [7:0] given);
wire [7:0] between;
stage second (.clk(clk), .reset(reset), .move(move), .taken(between), .given(given));
stage first (.given(between), .taken(taken), .move(move), .reset(reset), .clk(clk));
endmodule
";

const ROW_OF_STAGES: &[u8] = b"module top$project (
input wire [0:0] clk, input wire [0:0] reset,
input wire [0:0] hold$Double, input wire [47:0] ticks$Double,
input wire [7:0] in$x$data, input wire [0:0] in$x$valid, output wire [0:0] in$x$ready,
output wire [7:0] out$y$data, output wire [0:0] out$y$valid, input wire [0:0] out$y$ready,
output wire [0:0] done);
wire [0:0] w0; wire [0:0] w1; wire [0:0] w2;
row whole (.clk(clk), .reset(reset), .move(w2), .taken(in$x$data), .given(out$y$data));
assign w0 = ~hold$Double;
assign w1 = in$x$valid & out$y$ready;
assign w2 = w1 & w0;
assign out$y$valid = in$x$valid & w0;
assign in$x$ready = out$y$ready & w0;
assign done = 1'h0;
endmodule
";

// A memory of three words, whose address is the two low bits of the word that comes: the word that
// was there leaves, and the one that comes is written.
const MEMORY: &[u8] = b"wire [0:0] w1;
wire [0:0] w2;
wire [1:0] address;
reg [7:0] words [0:2];
assign w0 = ~hold$Double;
assign w1 = in$x$valid & out$y$ready;
assign w2 = w1 & w0;
assign address = in$x$data[1:0];
assign out$y$data = words[address];
assign out$y$valid = in$x$valid & w0;
assign in$x$ready = out$y$ready & w0;
assign done = 1'h0;
always @(posedge clk) begin
if (w2) words[address] <= in$x$data;
end
endmodule
";

// Every form of an expression but the word of a memory.
const FORMS: &[u8] = b"wire [3:0] low; wire [3:0] high; wire [7:0] swapped; wire [7:0] twice;
wire [7:0] product; wire [7:0] quotient; wire [0:0] same; wire [0:0] less; wire [7:0] chosen;
wire [7:0] mixed; wire [7:0] turned; wire [7:0] both; wire [7:0] either; wire [7:0] gap; wire [7:0] sum;
assign w0 = ~hold$Double;
assign low = in$x$data[3:0];
assign high = in$x$data[7:4];
assign swapped = {low, high};
assign twice = {2{low}};
assign product = swapped * twice;
assign quotient = product / twice;
assign same = swapped == twice;
assign less = swapped < twice;
assign chosen = same ? product : quotient;
assign mixed = chosen ^ swapped;
assign turned = ~mixed;
assign both = turned & product;
assign either = both | swapped;
assign gap = either - twice;
assign sum = gap + product;
assign out$y$data = less ? sum : turned;
assign out$y$valid = in$x$valid & w0;
assign in$x$ready = out$y$ready & w0;
assign done = 1'h0;
endmodule
";

// A register that is cleared in the reset edge and counts edges from then on; done from 2 on.
const COUNT: &[u8] = b"reg [1:0] count;
wire [1:0] next; wire [1:0] more; wire [1:0] one; wire [1:0] none; wire [0:0] always_on;
assign w0 = ~hold$Double;
assign one = 2'h1;
assign none = 2'h0;
assign always_on = 1'h1;
assign more = count + one;
assign next = reset ? none : more;
assign out$y$data = in$x$data;
assign out$y$valid = in$x$valid & w0;
assign in$x$ready = out$y$ready & w0;
assign done = count[1:1];
always @(posedge clk) begin
if (always_on) count <= next;
end
endmodule
";

const UNFILLED: &[u8] =
    b"{\"ticks\":{\"Double\":3},\"inputs\":{\"x\":\"x.txt\"},\"outputs\":{\"y\":\"y.txt\"},\"edges\":3}";

const FILLED: &[u8] =
    b"{\"ticks\":{\"Double\":3},\"inputs\":{\"x\":\"x.txt\"},\"outputs\":{\"y\":\"y.txt\"},\"edges\":3,\"fill\":\"a5\"}";

const FILLED_WIDE: &[u8] =
    b"{\"ticks\":{\"Double\":3},\"inputs\":{\"x\":\"x.txt\"},\"outputs\":{\"y\":\"y.txt\"},\"edges\":3,\"fill\":\"fff\"}";

const TEN_EDGES: &[u8] =
    b"{\"ticks\":{\"Double\":3},\"inputs\":{\"x\":\"x.txt\"},\"outputs\":{\"y\":\"y.txt\"},\"edges\":10,\"fill\":\"a5\"}";

// A text that runs to its last edge.
fn limited<'a>(
    body: &'a [u8],
    run: &'a [u8],
    x: &'a [u8],
    said: &'a [u8],
    y: &'a [u8],
) -> Case<'a> {
    Case {
        head: HEAD,
        body,
        run,
        x,
        status: Status::EdgeLimit,
        said,
        y,
    }
}

#[test]
fn words_leave_registers_and_memories(rt: HostRuntime) -> Result<(), Fail> {
    let three = b"not done after 3 edges\n".as_slice();
    let ten = b"not done after 10 edges\n".as_slice();
    let words = b"01\n02\n03\n".as_slice();
    let stages = Case {
        head: STAGES,
        ..limited(ROW_OF_STAGES, FILLED, words, three, b"a5\na5\n01\n")
    };
    let count = Case {
        status: Status::Done,
        ..limited(COUNT, FILLED, words, b"done after 2 edges\n", b"01\n02\n")
    };
    let cases = [
        limited(ROW, UNFILLED, words, three, b"00\n00\n01\n"),
        limited(ROW, FILLED, words, three, b"a5\na5\n01\n"),
        limited(ROW, FILLED_WIDE, words, three, b"ff\nff\n01\n"),
        stages,
        limited(
            MEMORY,
            TEN_EDGES,
            b"10\n21\n32\n43\n53\n64\n75\n",
            ten,
            b"a5\na5\na5\n00\n00\n10\n21\n",
        ),
        limited(
            FORMS,
            TEN_EDGES,
            b"12\n34\nff\n01\nc3\n9a\n50\n00\n",
            ten,
            b"a1\n57\n01\n0f\nc7\n4b\nfa\nff\n",
        ),
        count,
    ];
    for case in &cases {
        expect(&rt, rt.alloc(), case)?;
    }
    Ok(())
}

const PASS: &[u8] = b"module pass (
input wire [0:0] clk, input wire [0:0] reset, input wire [0:0] taken, output wire [0:0] given);
assign given = taken;
endmodule
module top (input wire [0:0] clk, input wire [0:0] reset);
wire [0:0] w0; wire [0:0] w1; wire [1:0] w2;
";

const STORE: &[u8] = b"module store (input wire [0:0] clk, input wire [0:0] reset);
reg [7:0] words [0:33554431];
endmodule
";

const THREE_STORES: &[u8] = b"module top$project (
input wire [0:0] clk, input wire [0:0] reset,
input wire [0:0] hold$Double, input wire [47:0] ticks$Double,
output wire [0:0] done);
store a (.clk(clk), .reset(reset));
store b (.clk(clk), .reset(reset));
store c (.clk(clk), .reset(reset));
assign done = 1'h0;
endmodule
";

const NO_STREAMS: &[u8] = b"{\"ticks\":{\"Double\":3},\"inputs\":{},\"outputs\":{},\"edges\":3}";

fn refused<'a>(head: &'a [u8], body: &'a [u8], run: &'a [u8], said: &'a [u8]) -> Case<'a> {
    Case {
        head,
        body,
        run,
        x: b"80\nff\n",
        status: Status::Refused,
        said,
        y: b"as before",
    }
}

#[test]
fn texts_of_several_modules_are_refused(rt: HostRuntime) -> Result<(), Fail> {
    let cases = [
        // a net that feeds itself through an instance
        refused(
            PASS,
            b"pass i (.clk(clk), .reset(reset), .taken(w0), .given(w1)); assign w0 = w1; assign w2 = 2'h0; endmodule",
            TWO_EDGES,
            b"refused V3 4 w0 w1\n",
        ),
        // a port that is joined to a net of another width
        refused(
            PASS,
            b"assign w0 = 1'h0; assign w2 = 2'h0; pass i (.clk(clk), .reset(reset), .taken(w2), .given(w1)); endmodule",
            TWO_EDGES,
            b"refused V3 2 w2\n",
        ),
        // a port that isn't joined, and a module that stands later
        refused(
            PASS,
            b"pass i (.clk(clk), .reset(reset), .taken(w0)); endmodule",
            TWO_EDGES,
            b"refused V3 1 given\n",
        ),
        refused(
            PASS,
            b"later i (.clk(clk), .reset(reset)); endmodule module later (input wire [0:0] clk, input wire [0:0] reset); endmodule",
            TWO_EDGES,
            b"refused V3 1 later\n",
        ),
        // two updates of a memory
        refused(
            PASS,
            b"reg [0:0] m [0:1]; assign w0 = 1'h0; assign w1 = 1'h0; assign w2 \
                = 2'h0; always @(posedge clk) begin if (w0) m[w0] <= w1; if (w1) \
                m[w0] <= w1; end endmodule",
            TWO_EDGES,
            b"refused V3 3 m\n",
        ),
        // more cells than a simulator holds
        refused(STORE, THREE_STORES, NO_STREAMS, b"refused V5 100663307\n"),
    ];
    for case in &cases {
        expect(&rt, rt.alloc(), case)?;
    }
    Ok(())
}
