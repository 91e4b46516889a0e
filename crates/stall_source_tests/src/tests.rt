// Answers of the program's pattern, computed by another program.
use stall_source::{Pattern, program_stalls};
use std::test::Fail;

#[test]
fn program_pattern_answers(rt: HostRuntime) -> Result<(), Fail> {
    let pattern = Pattern::new(|pick: u64, edge: u64, port: u32| program_stalls(pick, edge, port));
    let cases = [
        (2, 0, 0, true),
        (1, 0, 0, false),
        (0, 0, 0, false),
        (0, u64::MAX, u32::MAX, false),
        (5, 5, 5, true),
        (9, 9, 0, true),
        (1, 1, 0, false),
        (1, 0, 1, false),
        (7, 3, 2, false),
        (12345, 678, 9, false),
        (48, 100_000, 3, false),
        (u64::MAX, 0, 0, false),
        (u64::MAX, u64::MAX, u32::MAX, false),
        (1 << 63, 1 << 40, 17, false),
    ];
    for (pick, edge, port, stalls) in cases {
        assert!(rt;
            program_stalls(pick, edge, port) == stalls,
            "{pick} {edge} {port}"
        );
        assert!(rt;
            pattern.stalls(pick, edge, port) == stalls,
            "{pick} {edge} {port}"
        );
    }
    Ok(())
}
