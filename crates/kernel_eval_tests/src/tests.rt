// Worked sources: the kernels that they build, node by node, what managers build, and refusals.
use crate::building::{Built, build_alone};
use crate::fields::TWINS;
use crate::kernels::{DOUBLE, ENDLESS};
use crate::nodes::has_operands;
use crate::plans::{EndOf, PROJECTS, Project};
use crate::rows::ROWS;
use kernel_eval::eval_manager;
use kernel_meaning::{End, Plan};
use maxj_syntax::parse;
use mx_base::Text;
use std::alloc::Global;
use std::process::Abort;
use std::test::Fail;

#[test]
fn constructors_make_their_nodes(rt: HostRuntime) -> Result<(), Fail> {
    for (source, name, nodes) in ROWS {
        let built = build_alone(rt.alloc(), source.as_bytes(), name.as_bytes())?;
        match &built {
            Built::Kernel(kernel) => assert!(rt; has_operands(kernel, nodes), "{name}"),
            Built::Refused(line) => assert!(rt; false, "{name}: {line:?}"),
        }
    }
    Ok(())
}

// The names, as texts say them.
fn are_names(texts: &[Text], names: &[&[u8]]) -> bool {
    texts.len() == names.len()
        && texts
            .iter()
            .zip(names)
            .all(|(text, name)| text.as_bytes() == *name)
}

fn end_of(end: &End) -> EndOf<'_> {
    match end {
        End::Kernel(number, port) => EndOf::Kernel(*number, port.as_bytes()),
        End::Cpu(name) => EndOf::Cpu(name.as_bytes()),
    }
}

// A plan is this project's.
fn expect_plan(rt: &impl Abort, plan: &Plan, project: &Project, number: usize) {
    assert!(rt; plan.manager);
    assert!(rt;
        plan.kernels.len() == project.kernels.len(),
        "project {number}"
    );
    for (made, (name, class, args)) in plan.kernels.as_slice().iter().zip(project.kernels) {
        assert!(rt; made.name.as_bytes() == *name, "project {number}");
        assert!(rt; made.class == *class, "project {number}");
        assert!(rt; made.args.as_slice() == *args, "project {number}");
    }
    assert!(rt;
        are_names(plan.from_cpu.as_slice(), project.from_cpu),
        "project {number}"
    );
    assert!(rt;
        are_names(plan.to_cpu.as_slice(), project.to_cpu),
        "project {number}"
    );
    assert!(rt; plan.joins.len() == project.joins.len(), "project {number}");
    for (join, (left, right)) in plan.joins.as_slice().iter().zip(project.joins) {
        assert!(rt; end_of(&join.left) == *left, "project {number}");
        assert!(rt; end_of(&join.right) == *right, "project {number}");
    }
}

#[test]
fn managers_build_their_projects(rt: HostRuntime) -> Result<(), Fail> {
    let alloc = rt.alloc();
    for (number, project) in PROJECTS.iter().enumerate() {
        let program = parse(alloc, project.source.as_bytes())?;
        expect_plan(&rt, &eval_manager(alloc, &program)?, project, number);
    }
    Ok(())
}

// Sources whose constructor is refused, or makes no kernel, with the line that is said.
const REFUSED: [(&str, &str); 5] = [
    (ENDLESS, "refused E7\n"),
    (
        "class K extends Kernel {
  K(KernelParameters p) {
    super(p);
    DFEVar x = io.input(\"x\", dfeUInt(8));
    DFEVar y = io.input(\"y\", dfeUInt(9));
    DFEVar z = x + y;
  }
}
",
        "refused E3 164 1\n",
    ),
    (
        "class K extends Kernel {
  K(KernelParameters p) {
    super(p);
    DFEVar x = io.input(\"x\", dfeUInt(8));
    x <== x;
  }
}
",
        "refused E2 111\n",
    ),
    (
        "class K extends Kernel {
  K(KernelParameters p) {
    super(p);
    DFEVar v = dfeUInt(8).newInstance(this);
  }
}
",
        "refused G1 K 0\n",
    ),
    (
        "class K extends Kernel {
  K(KernelParameters p) {
    super(p);
    DFEVar x = io.input(\"x\", dfeUInt(8));
    io.output(\"y\", x, dfeUInt(8));
    io.output(\"y\", x, dfeUInt(8));
  }
}
",
        "refused G3 K y\n",
    ),
];

// The kernel K of a source is refused with this line.
fn expect_refused(rt: &impl Abort, alloc: Global, source: &str, line: &str) -> Result<(), Fail> {
    let built = build_alone(alloc, source.as_bytes(), b"K")?;
    match &built {
        Built::Kernel(_) => assert!(rt; false, "{source}"),
        Built::Refused(said) => assert!(rt; said.as_slice() == line.as_bytes(), "{source}"),
    }
    Ok(())
}

#[test]
fn constructors_are_refused(rt: HostRuntime) -> Result<(), Fail> {
    for (source, line) in REFUSED {
        expect_refused(&rt, rt.alloc(), source, line)?;
    }
    Ok(())
}

#[test]
fn fields_of_one_name_are_set_in_their_turns(rt: HostRuntime) -> Result<(), Fail> {
    for (source, line) in TWINS {
        expect_refused(&rt, rt.alloc(), source, line)?;
    }
    Ok(())
}

// The plan of a source without a manager, whose one kernel is Double.
fn expect_alone(rt: &impl Abort, plan: &Plan) {
    assert!(rt; !plan.manager);
    assert!(rt; plan.kernels.len() == 1);
    for made in plan.kernels.as_slice() {
        assert!(rt; made.name.as_bytes() == b"Double".as_slice());
        assert!(rt; (made.class, made.args.len()) == (0, 0));
    }
    let streams = (plan.from_cpu.len(), plan.to_cpu.len(), plan.joins.len());
    assert!(rt; streams == (0, 0, 0));
}

#[test]
fn a_kernel_stands_alone(rt: HostRuntime) -> Result<(), Fail> {
    let alloc = rt.alloc();
    let program = parse(alloc, DOUBLE.as_bytes())?;
    expect_alone(&rt, &eval_manager(alloc, &program)?);
    Ok(())
}
