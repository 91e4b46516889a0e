// Worked sources: the projects that they build, and refusals in the order of the stages.
use crate::sources::{LOOSE_WRONG, PASS, SAME_NAME, UNLINKED, WRONG_LOOSE, WRONG_MANAGER};
use crate::telling::{Told, tell};
use kernel_eval_tests::{RING, SPLIT_ADD};
use manager_links::Project;
use std::process::Abort;
use std::test::Fail;

/// A source, its kernels with the number of their nodes, and how many links there are.
type Row = (&'static str, &'static [(&'static [u8], usize)], usize);

const PROJECTS: [Row; 2] = [
    (PASS, &[(b"Pass", 2)], 0),
    (SPLIT_ADD, &[(b"A", 5), (b"B", 4)], 2),
];

// What is said is a project with these kernels and so many links.
fn expect_project(rt: &impl Abort, told: &Told, kernels: &[(&'static [u8], usize)], links: usize) {
    match told {
        Told::Project(project) => expect_parts(rt, project, kernels, links),
        Told::Refused(line) => assert!(rt; false, "{line:?}"),
    }
}

fn expect_parts(
    rt: &impl Abort,
    project: &Project,
    kernels: &[(&'static [u8], usize)],
    links: usize,
) {
    assert!(rt; project.kernels().len() == kernels.len());
    for (kernel, (name, nodes)) in project.kernels().iter().zip(kernels) {
        assert!(rt; kernel.name() == *name);
        assert!(rt; kernel.count() as usize == *nodes);
    }
    assert!(rt; project.links().len() == links);
}

#[test]
fn sources_have_projects(rt: HostRuntime) -> Result<(), Fail> {
    for (source, kernels, links) in PROJECTS {
        let told = tell(rt.alloc(), source.as_bytes())?;
        expect_project(&rt, &told, kernels, links);
    }
    Ok(())
}

// Sources that have no project, with the line that is said.
const REFUSED: [(&str, &str); 6] = [
    (RING, "refused P5 A B\n"),
    (LOOSE_WRONG, "refused G1 A 0\n"),
    (WRONG_LOOSE, "refused E2 278\n"),
    (WRONG_MANAGER, "refused E1 279\n"),
    (SAME_NAME, "refused P7 A\n"),
    (UNLINKED, "refused P2 A.y\n"),
];

// What is said is this line.
fn expect_line(rt: &impl Abort, told: &Told, line: &str) {
    match told {
        Told::Project(_) => assert!(rt; false, "{line}"),
        Told::Refused(said) => assert!(rt; said.as_slice() == line.as_bytes()),
    }
}

#[test]
fn sources_are_refused(rt: HostRuntime) -> Result<(), Fail> {
    for (source, expected) in REFUSED {
        let told = tell(rt.alloc(), source.as_bytes())?;
        expect_line(&rt, &told, expected);
    }
    Ok(())
}
