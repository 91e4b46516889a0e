use maxj_syntax::{NodeId, NodeKind, Program, SourceError, parse};
use mx_base::{NoMemory, Text};
use std::alloc::Global;

fn code(kind: NodeKind) -> &'static [u8] {
    match kind {
        NodeKind::Class => b"class",
        NodeKind::Field => b"field",
        NodeKind::Local => b"local",
        NodeKind::Method => b"method",
        NodeKind::Ctor => b"ctor",
        NodeKind::Param => b"param",
        NodeKind::Plain => b"type",
        NodeKind::ArrayOf => b"array",
        NodeKind::Block => b"block",
        NodeKind::Set => b"set",
        NodeKind::Connect => b"connect",
        NodeKind::Run => b"run",
        NodeKind::Return => b"return",
        NodeKind::If => b"if",
        NodeKind::While => b"while",
        NodeKind::For => b"for",
        NodeKind::Empty => b"empty",
        NodeKind::Braces => b"braces",
        NodeKind::Cond => b"cond",
        NodeKind::Binary => b"op",
        NodeKind::Prefix => b"pre",
        NodeKind::Dot => b"dot",
        NodeKind::DotCall => b"dotcall",
        NodeKind::Call => b"call",
        NodeKind::Index => b"index",
        NodeKind::New => b"new",
        NodeKind::NewArray => b"newarray",
        NodeKind::Whole => b"whole",
        NodeKind::Decimal => b"decimal",
        NodeKind::Str => b"str",
        NodeKind::Name => b"name",
    }
}

fn digit(value: u32) -> u8 {
    match b"0123456789".get((value % 10) as usize) {
        Some(digit) => *digit,
        None => b'?',
    }
}

fn number(out: &mut Text, value: u32) -> Result<(), NoMemory> {
    if value < 10 {
        out.append(&[digit(value)])
    } else {
        out.append(&[digit(value / 10), digit(value)])
    }
}

// The tree under a node, down to a depth: (kind word from-to children).
fn show(
    program: &Program<'_>,
    node: NodeId,
    depth: u8,
    spans: bool,
    out: &mut Text,
) -> Result<(), NoMemory> {
    let Some(node) = program.tree.node(node) else {
        return Ok(())
    };
    if depth == 0 {
        return Ok(());
    }
    out.append(b"(")?;
    out.append(code(node.kind))?;
    if !node.word.is_empty() {
        out.append(b" ")?;
        out.append(node.word)?;
    }
    if spans {
        out.append(b" ")?;
        number(out, node.span.from)?;
        out.append(b"-")?;
        number(out, node.span.to)?;
    }
    for child in node.children {
        out.append(b" ")?;
        show(program, *child, depth - 1, spans, out)?;
    }
    out.append(b")")
}

#[derive(Drop)]
enum Outcome {
    Tree(Text),
    Misplaced(u32),
    Other,
}

fn read(alloc: Global, source: &[u8], spans: bool) -> Outcome {
    if source.len() >= 4000 {
        return Outcome::Other;
    }
    match parse(alloc, source) {
        Err(SourceError::Misplaced(place)) => Outcome::Misplaced(place),
        Err(_) => Outcome::Other,
        Ok(program) => {
            let mut out = Text::from_vec(Vec::new(alloc));
            for class in program.classes.as_slice() {
                if show(&program, class.node, 200, spans, &mut out).is_err() {
                    return Outcome::Other;
                }
            }
            Outcome::Tree(out)
        }
    }
}

fn statement(alloc: Global, text: &[u8]) -> Outcome {
    let mut source = Text::from_vec(Vec::new(alloc));
    if source
        .append(b"class K extends Kernel{K(KernelParameters p){super(p);")
        .is_err()
    {
        return Outcome::Other;
    }
    if source.append(text).is_err() || source.append(b"}}").is_err() {
        return Outcome::Other;
    }
    read(alloc, source.as_bytes(), false)
}

const HEAD: &[u8] = b"(class K (ctor K (param p (type KernelParameters)) (block ";

#[test]
fn statements_have_trees(rt: HostRuntime) {
    let cases: [(&[u8], &[u8]); 30] = [
        (
            b"x=a+b*c;",
            b"(set = (name x) (op + (name a) (op * (name b) (name c))))",
        ),
        (
            b"x[1][i]+=-~a;",
            b"(set += (index (index (name x) (whole 1)) (name i)) (pre - (pre ~ (name a))))",
        ),
        (b"i++;", b"(set ++ (name i))"),
        (b"y<==x;", b"(connect (name y) (name x))"),
        (
            b"a.b(1,2).c<==d?e:f;",
            b"(connect (dot c (dotcall b (name a) (whole 1) (whole 2))) (cond (name d) (name e) (name f)))",
        ),
        (b"f(x);", b"(run (call f (name x)))"),
        (b"new K(1);", b"(run (new K (whole 1)))"),
        (b"this.x.y();", b"(run (dotcall y (dot x (name this))))"),
        (
            b"final int[] a={1,{2}};",
            b"(local a (array (type int)) (braces (whole 1) (braces (whole 2))))",
        ),
        (b"DFEVar x;", b"(local x (type DFEVar))"),
        (
            b"DFEVar[][] x=new DFEVar[2][3];",
            b"(local x (array (array (type DFEVar))) (newarray (type DFEVar) (whole 2) (whole 3)))",
        ),
        (
            b"Memory<DFEVar> m=mem.alloc(t,4);",
            b"(local m (type Memory) (dotcall alloc (name mem) (name t) (whole 4)))",
        ),
        (b"Memory<DFEVar> m;", b"(local m (type Memory))"),
        (b"Memory<DFEVar>[] m;", b"(local m (array (type Memory)))"),
        (
            b"final Memory<DFEVar> m=x;",
            b"(local m (type Memory) (name x))",
        ),
        (
            b"Memory<DFEVar>m<==v;",
            b"(connect (op > (op < (name Memory) (name DFEVar)) (name m)) (name v))",
        ),
        (
            b"Memory<DFEVar>m+1<==v;",
            b"(connect (op > (op < (name Memory) (name DFEVar)) (op + (name m) (whole 1))) (name v))",
        ),
        (
            b"Memory<DFEVar.x>1<==v;",
            b"(connect (op > (op < (name Memory) (dot x (name DFEVar))) (whole 1)) (name v))",
        ),
        (
            b"Memory<2*x==y<==v;",
            b"(connect (op == (op < (name Memory) (op * (whole 2) (name x))) (name y)) (name v))",
        ),
        (
            b"Memory*2<==v;",
            b"(connect (op * (name Memory) (whole 2)) (name v))",
        ),
        (b"Memory=v;", b"(set = (name Memory) (name v))"),
        (
            b"Memory[2]=v;",
            b"(set = (index (name Memory) (whole 2)) (name v))",
        ),
        (
            b"Memory x=new Memory<DFEVar>[3];",
            b"(local x (type Memory) (newarray (type Memory) (whole 3)))",
        ),
        (
            b"x=new Memory(3);",
            b"(set = (name x) (new Memory (whole 3)))",
        ),
        (
            b"if(a){}else if(b)x=1;else return;",
            b"(if (name a) (block) (name b) (set = (name x) (whole 1)) (return))",
        ),
        (b"while(true)f();", b"(while (name true) (run (call f)))"),
        (
            b"for(int i=0;i<n;i++){}",
            b"(for (local i (type int) (whole 0)) (op < (name i) (name n)) (set ++ (name i)) (block))",
        ),
        (b"for(;;);", b""),
        (
            b"for(;;)x=(a+b)*c;",
            b"(for (empty) (empty) (empty) (set = (name x) (op * (op + (name a) (name b)) (name c))))",
        ),
        (b"{;}", b"(block (empty))"),
    ];
    for (text, wanted) in cases {
        match statement(rt.alloc(), text) {
            Outcome::Tree(tree) => {
                let bytes = tree.as_bytes();
                let mut expected = Text::from_vec(Vec::new(rt.alloc()));
                let _ = expected.append(HEAD);
                let _ = expected.append(wanted);
                let _ = expected.append(b")))");
                assert!(rt; bytes == expected.as_bytes());
            }
            Outcome::Misplaced(place) => {
                assert!(rt; wanted.len() == 0);
                assert!(rt; place == 61);
            }
            Outcome::Other => assert!(rt; false),
        }
    }
}

#[test]
fn sources_have_classes(rt: HostRuntime) {
    let cases: [(&[u8], &[u8]); 6] = [
        (
            b"package a.b;import static a.*;import b;public final class K extends \
                Kernel{protected K(KernelParameters p,final int[] n,Memory<DFEVar> \
                m){super(p);x=1;}}",
            b"(class K (ctor K (param p (type KernelParameters)) (param n (array (type int))) (param m (type Memory)) (block (set = (name x) (whole 1)))))",
        ),
        (
            b"class L extends Kernel{L(KernelParameters p){super(p);}}class M \
                extends CustomManager{int a=1;M(final EngineParameters e){super(e)\
                ;}K f(){return new K();}public static void main(String[] s){}}",
            b"(class L (ctor L (param p (type KernelParameters)) (block)))(class \
                M (field a (type int) (whole 1)) (ctor M (param e (type EngineParameters)\
                ) (block)) (method f (type K) (block (return (new K)))) (method \
                main (type void) (param s (array (type String))) (block)))",
        ),
        (
            b"class Memory extends Kernel{Memory x;Memory<DFEVar>[] m;Memory(KernelParameters p){super(p);}}",
            b"(class Memory (field x (type Memory)) (field m (array (type Memory))) (ctor Memory (param p (type KernelParameters)) (block)))",
        ),
        (
            b"class A extends Kernel{A(KernelParameters a){super(a);}}class B extends CustomManager{B(EngineParameters b){super(b);}B[] c(B b){}}",
            b"(class A (ctor A (param a (type KernelParameters)) (block)))(class \
                B (ctor B (param b (type EngineParameters)) (block)) (method c (array \
                (type B)) (param b (type B)) (block)))",
        ),
        (
            b"class Kernel extends Kernel{Kernel(KernelParameters Kernel){super(Kernel);}}",
            b"(class Kernel (ctor Kernel (param Kernel (type KernelParameters)) (block)))",
        ),
        (
            b"class K extends Kernel{K k;K(KernelParameters p){super(p);for(int i=0;;){}}void g(int a,K b){}}",
            b"(class K (field k (type K)) (ctor K (param p (type KernelParameters)\
                ) (block (for (local i (type int) (whole 0)) (empty) (empty) (block)\
                ))) (method g (type void) (param a (type int)) (param b (type K)\
                ) (block)))",
        ),
    ];
    for (text, wanted) in cases {
        match read(rt.alloc(), text, false) {
            Outcome::Tree(tree) => assert!(rt; tree.as_bytes() == wanted),
            Outcome::Misplaced(place) => assert!(rt; place == 1000),
            Outcome::Other => assert!(rt; false),
        }
    }
}

#[test]
fn trees_have_spans(rt: HostRuntime) {
    let source: &[u8] =
        b"final class K extends Kernel{final int a=(1+x)*2;K(KernelParameters p){super(p);for(;;)y;Memory<DFEVar> m;}}";
    let short: &[u8] =
        b"class K extends Kernel{K(KernelParameters p){super(p);for(;;)y();Memory<DFEVar> m;z=(1+x)*2;}}";
    let wanted: &[u8] = b"(class K 0-94 (ctor K 23-93 (param p 25-43 (type KernelParameters 25-41)\
            ) (block 44-93 (for 54-65 (empty 58-58) (empty 59-59) (empty 60-60) \
            (run 61-64 (call y 61-64))) (local m 65-82 (type Memory 65-79)) (set \
            = 82-91 (name z 82-83) (op * 84-91 (op + 85-88 (whole 1 85-86) (name \
            x 87-88)) (whole 2 90-91))))))";
    match read(rt.alloc(), source, true) {
        Outcome::Misplaced(place) => assert!(rt; place == 88),
        _ => assert!(rt; false),
    }
    match read(rt.alloc(), short, true) {
        Outcome::Tree(tree) => assert!(rt; tree.as_bytes() == wanted),
        _ => assert!(rt; false),
    }
}

#[test]
fn misplaced_tokens_have_places(rt: HostRuntime) {
    let cases: [(&[u8], u32); 19] = [
        (b"", 0),
        (b"class K extends Kernel{}", 23),
        (
            b"class K extends Kernel{K(KernelParameters p){super(p);}K(KernelParameters q){}}",
            56,
        ),
        (
            b"class K extends Kernel{L(KernelParameters p){super(p);}}",
            24,
        ),
        (
            b"class K extends Kernel{K(EngineParameters p){super(p);}}",
            25,
        ),
        (
            b"class K extends CustomManager{K(EngineParameters p,int a){super(p);}}",
            50,
        ),
        (
            b"class K extends Kernel{K(KernelParameters p){super(q);}}",
            51,
        ),
        (
            b"class K extends Kernel{K(KernelParameters p){super((p));}}",
            51,
        ),
        (b"class K extends Kernel{K(KernelParameters p){}}", 45),
        (
            b"class K extends Kernel{K(KernelParameters p){super(p);}",
            55,
        ),
        (b"class K extends Object{}", 16),
        (b"class void extends Kernel{}", 6),
        (b"package a;package b;", 10),
        (b"import a.*.b;", 10),
        (b"import a.static;", 9),
        (
            b"class K extends Kernel{K(KernelParameters p){super(p);(f(x));}}",
            60,
        ),
        (
            b"class K extends Kernel{K(KernelParameters p){super(p);super(p);}}",
            54,
        ),
        (
            b"class K extends Kernel{K(KernelParameters p){super(p);a.b=c;}}",
            57,
        ),
        (
            b"class K extends Kernel{K(KernelParameters p){super(p);Memory<DFEVar>m);}}",
            69,
        ),
    ];
    for (text, wanted) in cases {
        match read(rt.alloc(), text, false) {
            Outcome::Misplaced(place) => assert!(rt; place == wanted),
            _ => assert!(rt; 1000 == wanted),
        }
    }
}
