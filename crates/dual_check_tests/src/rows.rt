// A diamond of four nodes, and answers to it with the verdicts on them.
use cycle_find::Arc;
use dual_check::Verdict;
use schedule_problem::Term;

pub const NODES: u32 = 4;

/// From node 0 to nodes 1 and 2, and from these to node 3, which may stand before node 1.
pub const ARCS: &[Arc] = &[
    Arc {
        from: 0,
        to: 1,
        need: 1,
    },
    Arc {
        from: 0,
        to: 2,
        need: 3,
    },
    Arc {
        from: 1,
        to: 3,
        need: -2,
    },
    Arc {
        from: 2,
        to: 3,
        need: 1,
    },
];

/// One for each arc. So the nodes' surpluses are 12, -6, 12 and -18.
pub const TERMS: &[Term] = &[
    Term {
        from: 0,
        to: 1,
        weight: 8,
        mid: 1,
    },
    Term {
        from: 0,
        to: 2,
        weight: 4,
        mid: 2,
    },
    Term {
        from: 1,
        to: 3,
        weight: 2,
        mid: 3,
    },
    Term {
        from: 2,
        to: 3,
        weight: 16,
        mid: 3,
    },
];

pub const BASE: u64 = 5;

/// An answer, and what is to be said of it.
pub struct Row {
    pub times: &'static [i64],
    pub flow: &'static [u64],
    pub verdict: Verdict,
}

/// The best times cost 8 * 1 + 4 * 3 + 2 * 3 + 16 * 1 - 5, and the best flow is worth
/// 6 * 1 + 6 * 3 + 0 * -2 + 18 * 1 - 5, which both are 37.
pub const ROWS: &[Row] = &[
    Row {
        times: &[0, 1, 3, 4],
        flow: &[6, 6, 0, 18],
        verdict: Verdict::Good,
    },
    // all times earlier
    Row {
        times: &[-10, -9, -7, -6],
        flow: &[6, 6, 0, 18],
        verdict: Verdict::Good,
    },
    // node 2 is early
    Row {
        times: &[0, 1, 2, 4],
        flow: &[6, 6, 0, 18],
        verdict: Verdict::BadTimes(1),
    },
    // node 3 is early for both arcs that end there, and nothing is sent
    Row {
        times: &[0, 7, 3, 3],
        flow: &[0, 0, 0, 0],
        verdict: Verdict::BadTimes(2),
    },
    // node 2 sends 17 and takes 6
    Row {
        times: &[0, 1, 3, 4],
        flow: &[6, 6, 0, 17],
        verdict: Verdict::BadFlow(2),
    },
    // node 0 sends 11, and node 1 takes 5
    Row {
        times: &[0, 1, 3, 4],
        flow: &[5, 6, 0, 18],
        verdict: Verdict::BadFlow(0),
    },
    // node 3 takes 19, and node 1 sends 1 more than it is to
    Row {
        times: &[0, 1, 3, 4],
        flow: &[6, 6, 1, 18],
        verdict: Verdict::BadFlow(1),
    },
    // node 1 is late: the times cost 8 * 2 + 4 * 3 + 2 * 2 + 16 * 1 - 5
    Row {
        times: &[0, 2, 3, 4],
        flow: &[6, 6, 0, 18],
        verdict: Verdict::CostsDiffer(43, 37),
    },
    // 2 go by node 1: the flow is worth 8 * 1 + 4 * 3 + 2 * -2 + 16 * 1 - 5
    Row {
        times: &[0, 1, 3, 4],
        flow: &[8, 4, 2, 16],
        verdict: Verdict::CostsDiffer(37, 27),
    },
];
