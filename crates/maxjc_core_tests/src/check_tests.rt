// Reports on kernels, what `compile` writes of them and what `check` says of them.
use crate::commands::{CHECK, expect_ends, expect_unsaid};
use crate::files::{expect_file, files_with, put};
use crate::kernel_sources::{SLOW, SQUARE, SUM3};
use crate::kernel_tests::compiled;
use crate::schedule_tests::{ITSELF, MANAGER};
use crate::tests::{DOUBLE, IMMEDIATE, text};
use maxjc_core::Status;
use mx_base::{MemFiles, read_whole};
use std::alloc::Global;
use std::process::Abort;
use std::test::Fail;

const HEAD: &[u8] = b"kernel Sum3 nodes 6 edges 5 bits 32\n";

const TIMES: &[u8] = b"time 0\ntime 0\ntime 0\ntime 0\ntime 1\ntime 2\n";

const FLOW: &[u8] =
    b"flow 0\nflow 32\nflow 32\nflow 0\nflow 32\nflow 32\nflow 0\nflow 0\nflow 32\nflow 32\n";

const END: &[u8] = b"end\n";

// A report on the sum of three neighbours: the lines behind its first one, and what is said of it.
#[derive(Clone, Copy)]
struct Case {
    head: &'static [u8],
    times: &'static [u8],
    flow: &'static [u8],
    end: &'static [u8],
    said: &'static [u8],
}

// The report that shows that 32 bits are the fewest.
const SHOWN: Case = Case {
    head: HEAD,
    times: TIMES,
    flow: FLOW,
    end: END,
    said: b"kernel Sum3 least 32\n",
};

const REFUSED: [Case; 17] = [
    // without its last line
    Case {
        end: b"",
        said: b"refused Q1 19\n",
        ..SHOWN
    },
    // the last line without its end
    Case {
        end: b"end",
        said: b"refused Q1 19\n",
        ..SHOWN
    },
    Case {
        flow: b"flow 0\nflow 032\nflow 32\nflow 0\nflow 32\nflow 32\nflow 0\nflow 0\nflow 32\nflow 32\n",
        said: b"refused Q1 10\n",
        ..SHOWN
    },
    Case {
        end: b"end\nx\n",
        said: b"refused Q1 20\n",
        ..SHOWN
    },
    Case {
        head: b"kernel Sum3 nodes 7 edges 5 bits 32\n",
        said: b"refused Q1 9\n",
        ..SHOWN
    },
    Case {
        times: b"time 0\n",
        said: b"refused Q1 4\n",
        ..SHOWN
    },
    Case {
        head: b"kernel Sum3 nodes 6 edges 5 bits 032\n",
        said: b"refused Q1 2\n",
        ..SHOWN
    },
    Case {
        head: b"kernel Sum4 nodes 6 edges 5 bits 32\n",
        said: b"refused Q2 2\n",
        ..SHOWN
    },
    Case {
        times: b"time -1\ntime 0\ntime 0\ntime 0\ntime 1\ntime 2\n",
        said: b"refused Q2 2\n",
        ..SHOWN
    },
    // the costs are those of the times, and one is below 0
    Case {
        times: b"time -1\ntime -1\ntime -1\ntime -1\ntime 0\ntime 1\n",
        said: b"refused Q2 3\n",
        ..SHOWN
    },
    Case {
        head: b"",
        times: b"",
        flow: b"",
        said: b"refused Q2 2\n",
        ..SHOWN
    },
    // another kernel, and a second one
    Case {
        head: b"kernel Sum4 nodes 6 edges 5 bits 32\n",
        end: b"kernel Sum3 nodes 0 edges 0 bits 0\nend\n",
        said: b"refused Q2 2\n",
        ..SHOWN
    },
    // a second kernel
    Case {
        end: b"kernel Sum3 nodes 0 edges 0 bits 0\nend\n",
        said: b"refused Q2 19\n",
        ..SHOWN
    },
    Case {
        flow: b"flow 0\nflow 31\nflow 32\nflow 0\nflow 32\nflow 32\nflow 0\nflow 0\nflow 32\nflow 32\n",
        said: b"refused Q4 Sum3 2\n",
        ..SHOWN
    },
    Case {
        head: b"kernel Sum3 nodes 6 edges 5 bits 64\n",
        times: b"time 0\ntime 0\ntime 0\ntime 0\ntime 2\ntime 3\n",
        said: b"refused Q5 Sum3 64 32\n",
        ..SHOWN
    },
    Case {
        times: b"time 0\ntime 0\ntime 0\ntime 0\ntime 0\ntime 2\n",
        said: b"refused Q3 Sum3 4\n",
        ..SHOWN
    },
    Case {
        head: b"kernel Sum3 nodes 6 edges 5 bits 0\n",
        times: b"time 0\ntime 0\ntime 0\ntime 0\ntime 0\ntime 2\n",
        said: b"refused Q2 2\n",
        ..SHOWN
    },
];

// The report of these lines.
fn report(alloc: Global, case: &Case) -> Result<Vec<u8>, Fail> {
    let mut report = b"maxjc-report 1\n".to_vec(alloc)?;
    report.extend_from_slice(case.head)?;
    report.extend_from_slice(case.times)?;
    report.extend_from_slice(case.flow)?;
    report.extend_from_slice(case.end)?;
    Ok(report)
}

// How `check` ends with these files, and what is said.
fn expect_check(
    rt: &impl Abort,
    alloc: Global,
    files: &mut MemFiles,
    status: Status,
    said: &[u8],
) -> Result<(), Fail> {
    expect_ends(rt, alloc, &CHECK, files, status, said)
}

// Files in memory with this source and this table, which fail at these calls.
fn project(alloc: Global, source: &[u8], table: &[u8], fails: &[u64]) -> Result<MemFiles, Fail> {
    files_with(alloc, &[(b"source", source), (b"table", table)], fails)
}

// How `check` ends with this report on the sum of three neighbours. The report is as before.
fn expect_case(rt: &impl Abort, alloc: Global, case: &Case, status: Status) -> Result<(), Fail> {
    let bytes = report(alloc, case)?;
    let mut files = project(alloc, SUM3, SLOW, &[])?;
    put(alloc, &mut files, b"report", &bytes)?;
    expect_check(rt, alloc, &mut files, status, case.said)?;
    expect_file(rt, alloc, &mut files, b"report", &bytes)
}

#[test]
fn reports_are_shown_or_refused(rt: HostRuntime) -> Result<(), Fail> {
    let alloc = rt.alloc();
    expect_case(&rt, alloc, &SHOWN, Status::Done)?;
    for case in &REFUSED {
        expect_case(&rt, alloc, case, Status::Refused)?;
    }
    Ok(())
}

// A source and a table, what `compile` says of them, the report that it writes up to some line, and
// what `check` says of that report.
#[derive(Clone, Copy)]
struct Written {
    source: &'static [u8],
    table: &'static [u8],
    summary: &'static [u8],
    begin: &'static [u8],
    said: &'static [u8],
}

const WRITTEN: [Written; 3] = [
    Written {
        source: DOUBLE,
        table: IMMEDIATE,
        summary: b"kernel Double fifo 0\n",
        begin: b"maxjc-report 1\nkernel Double nodes 3 edges 3 bits 0\ntime 0\ntime 0\ntime 0\nflow ",
        said: b"kernel Double least 0\n",
    },
    Written {
        source: SUM3,
        table: SLOW,
        summary: b"kernel Sum3 fifo 32\n",
        begin: b"maxjc-report 1\nkernel Sum3 nodes 6 edges 5 bits 32\ntime 0\ntime 0\ntime 0\ntime 0\ntime 1\ntime 2\nflow ",
        said: b"kernel Sum3 least 32\n",
    },
    Written {
        source: SQUARE,
        table: SLOW,
        summary: b"kernel Square fifo 24\n",
        begin: b"maxjc-report 1\nkernel Square nodes 6 edges 7 bits 24\ntime 0\n",
        said: b"kernel Square least 24\n",
    },
];

// The report that these files hold begins so.
fn expect_begins(
    rt: &impl Abort,
    alloc: Global,
    files: &mut MemFiles,
    begin: &[u8],
) -> Result<(), Fail> {
    let report = read_whole(alloc, files, &text(alloc, b"report")?, 10_000)?;
    assert!(rt;
        report.starts_with(begin),
        "{:?}",
        text(alloc, report.as_slice())?
    );
    Ok(())
}

#[test]
fn what_compile_writes_is_shown(rt: HostRuntime) -> Result<(), Fail> {
    let alloc = rt.alloc();
    for case in WRITTEN {
        let mut files = compiled(&rt, alloc, case.source, case.table, case.summary)?;
        expect_begins(&rt, alloc, &mut files, case.begin)?;
        expect_check(&rt, alloc, &mut files, Status::Done, case.said)?;
    }
    Ok(())
}

// The calls of `check`: two reads of the source, two of the table, two of the report.
#[test]
fn a_read_that_fails_ends_the_check(rt: HostRuntime) -> Result<(), Fail> {
    let alloc = rt.alloc();
    let shown = report(alloc, &SHOWN)?;
    for call in 1..7 {
        let mut files = project(alloc, SUM3, SLOW, &[call])?;
        put(alloc, &mut files, b"report", &shown)?;
        expect_check(&rt, alloc, &mut files, Status::ReadFault, b"")?;
    }
    Ok(())
}

// All files are read before any is looked at.
#[test]
fn a_report_that_is_not_held(rt: HostRuntime) -> Result<(), Fail> {
    let alloc = rt.alloc();
    for source in [SUM3, b"class".as_slice()] {
        let mut files = project(alloc, source, SLOW, &[])?;
        expect_check(&rt, alloc, &mut files, Status::ReadFault, b"")?;
    }
    Ok(())
}

// A source and a table are refused before their report is.
#[test]
fn projects_are_refused_before_reports(rt: HostRuntime) -> Result<(), Fail> {
    let alloc = rt.alloc();
    let projects: [(&[u8], &[u8], &[u8]); 5] = [
        (b"class", b"[", b"refused S3 5\n"),
        (MANAGER, IMMEDIATE, b"refused P9 0\n"),
        (SUM3, b"[", b"refused T1\n"),
        (SUM3, b"{}", b"refused L1 Sum3 add 32\n"),
        (
            ITSELF,
            IMMEDIATE,
            b"refused C1 Self latency 0 back 0 nodes 0\n",
        ),
    ];
    for (source, table, said) in projects {
        let mut files = project(alloc, source, table, &[])?;
        put(alloc, &mut files, b"report", b"no report")?;
        expect_check(&rt, alloc, &mut files, Status::Refused, said)?;
    }
    Ok(())
}

#[test]
fn a_line_that_cannot_be_said(rt: HostRuntime) -> Result<(), Fail> {
    let alloc = rt.alloc();
    let shown = report(alloc, &SHOWN)?;
    let mut files = project(alloc, SUM3, SLOW, &[])?;
    put(alloc, &mut files, b"report", &shown)?;
    expect_unsaid(&rt, alloc, &CHECK, &mut files)
}
