// Texts, and the first wrong line of each.

/// The report on the sum of a word and those beside it.
pub const SUM: &str = "maxjc-report 1
kernel Sum3 nodes 6 edges 5 bits 32
time 0
time 0
time 0
time 0
time 1
time 2
flow 0
flow 32
flow 32
flow 0
flow 32
flow 32
flow 0
flow 0
flow 32
flow 32
end
";

/// Texts and their first wrong line. That of a report is 0.
pub const TEXTS: &[(&str, u64)] = &[
    (SUM, 0),
    ("maxjc-report 1\nend\n", 0),
    (
        "maxjc-report 1\nkernel A_1 nodes 0 edges 0 bits 0\nkernel b nodes 1 edges 0 bits 7\ntime -1\nend\n",
        0,
    ),
    (
        "maxjc-report 1\nkernel K nodes 2 edges 0 bits 9223372036854775807\ntime -1152921504606846976\ntime 1152921504606846976\nend\n",
        0,
    ),
    ("", 1),
    ("maxjc-report 1", 1),
    ("\nmaxjc-report 1\nend\n", 1),
    ("maxjc-report 2\nend\n", 1),
    ("maxjc-report  1\nend\n", 1),
    ("maxjc-report 1 \nend\n", 1),
    ("maxjc-report 1\r\nend\r\n", 1),
    ("maxjc-report 1\n", 2),
    ("maxjc-report 1\nend", 2),
    ("maxjc-report 1\n\nend\n", 2),
    ("maxjc-report 1\nend\nend\n", 3),
    ("maxjc-report 1\nend\n\n", 3),
    ("maxjc-report 1\nend\nx", 3),
    ("maxjc-report 1\nkernel K nodes 0 edges 0 bits 0", 2),
    ("maxjc-report 1\nkernel K  nodes 0 edges 0 bits 0\nend\n", 2),
    ("maxjc-report 1\nkernel K nodes  0 edges 0 bits 0\nend\n", 2),
    ("maxjc-report 1\nkernel K nodes 0 edges 0 bits 0 \nend\n", 2),
    ("maxjc-report 1\nkernel K nodes 00 edges 0 bits 0\nend\n", 2),
    (
        "maxjc-report 1\nkernel K nodes 01 edges 0 bits 0\ntime 0\nend\n",
        2,
    ),
    ("maxjc-report 1\nkernel K nodes +0 edges 0 bits 0\nend\n", 2),
    ("maxjc-report 1\nkernel K nodes  edges 0 bits 0\nend\n", 2),
    ("maxjc-report 1\nkernel K nodes 0 edges 0 bits\nend\n", 2),
    (
        "maxjc-report 1\nkernel K nodes 4294967296 edges 0 bits 0\nend\n",
        2,
    ),
    (
        "maxjc-report 1\nkernel K nodes 0 edges 18446744073709551616 bits 0\nend\n",
        2,
    ),
    (
        "maxjc-report 1\nkernel K nodes 0 edges 0 bits 9223372036854775808\nend\n",
        2,
    ),
    ("maxjc-report 1\nkernel K$ nodes 0 edges 0 bits 0\nend\n", 2),
    ("maxjc-report 1\nkernel 1K nodes 0 edges 0 bits 0\nend\n", 2),
    ("maxjc-report 1\nkernel  nodes 0 edges 0 bits 0\nend\n", 2),
    (
        "maxjc-report 1\nkernel K nodes 1 edges 0 bits 0\ntime -0\nend\n",
        3,
    ),
    (
        "maxjc-report 1\nkernel K nodes 1 edges 0 bits 0\ntime +1\nend\n",
        3,
    ),
    (
        "maxjc-report 1\nkernel K nodes 1 edges 0 bits 0\ntime -01\nend\n",
        3,
    ),
    (
        "maxjc-report 1\nkernel K nodes 1 edges 0 bits 0\ntime 1152921504606846977\nend\n",
        3,
    ),
    (
        "maxjc-report 1\nkernel K nodes 1 edges 1 bits 0\nflow 0\nflow 0\ntime 0\nend\n",
        3,
    ),
    (
        "maxjc-report 1\nkernel K nodes 2 edges 0 bits 0\ntime 0\nend\n",
        4,
    ),
    (
        "maxjc-report 1\nkernel K nodes 2 edges 1 bits 0\ntime 0\nflow 0\nflow 0\nend\n",
        4,
    ),
    (
        "maxjc-report 1\nkernel K nodes 1 edges 0 bits 0\ntime 0\ntime 0\nend\n",
        4,
    ),
    (
        "maxjc-report 1\nkernel K nodes 0 edges 1 bits 0\nflow 0\nflow -1\nend\n",
        4,
    ),
    (
        "maxjc-report 1\nkernel K nodes 0 edges 1 bits 0\nflow 0\nend\n",
        4,
    ),
    (
        "maxjc-report 1\nkernel K nodes 0 edges 1 bits 0\nflow 0\nflow 0\nflow 0\nend\n",
        5,
    ),
    (
        "maxjc-report 1\nkernel K nodes 0 edges 1 bits 0\nflow 0\nflow 9223372036854775808\nend\n",
        4,
    ),
];
