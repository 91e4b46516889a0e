// Literals at the ends of types and at halves. The rows are printed by bench/vectors_arith.py.
ghost use Rattle.std.specs.Prelude.{◌≡◌, ◌≤◌};
ghost use Rattle.fix_arith.specs.Types.{HasWidth};

use fix_arith::{Number, RoundMode, StreamType, TypeError, literal, result_type};
use mx_bits::Op;
use std::test::Fail;

fn fix(whole: u8, frac: u8, signed: bool) -> StreamType
    ensures { result ≡ StreamType.Fix whole frac signed }
{
    StreamType::Fix {
        whole,
        frac,
        signed,
    }
}

fn literals(negative: bool, digits: u128, tens: u8, out: StreamType) -> [Option<u128>; 3]
    requires tens { tens ≤ 30 }
    requires out { HasWidth out }
{
    let number = Number {
        negative,
        digits,
        tens,
    };
    [
        literal(&number, RoundMode::Truncate, out)
            .ok()
            .map(|w| w.bits()),
        literal(&number, RoundMode::ToNear, out)
            .ok()
            .map(|w| w.bits()),
        literal(&number, RoundMode::ToNearEven, out)
            .ok()
            .map(|w| w.bits()),
    ]
}

#[test]
fn literals_are_rounded_and_in_range(rt: HostRuntime) {
    let rows = [
        (
            literals(false, 0x0, 0, StreamType::UInt(1)),
            [Some(0x0), Some(0x0), Some(0x0)],
        ),
        (
            literals(true, 0x0, 0, StreamType::Bool),
            [Some(0x0), Some(0x0), Some(0x0)],
        ),
        (
            literals(false, 0x1, 0, StreamType::Bool),
            [Some(0x1), Some(0x1), Some(0x1)],
        ),
        (
            literals(false, 0x2, 0, StreamType::Bool),
            [None, None, None],
        ),
        (
            literals(
                false,
                0xffff_ffff_ffff_ffff_ffff_ffff_ffff_ffff,
                0,
                StreamType::UInt(128),
            ),
            [
                Some(0xffff_ffff_ffff_ffff_ffff_ffff_ffff_ffff),
                Some(0xffff_ffff_ffff_ffff_ffff_ffff_ffff_ffff),
                Some(0xffff_ffff_ffff_ffff_ffff_ffff_ffff_ffff),
            ],
        ),
        (
            literals(true, 0x1, 0, StreamType::UInt(128)),
            [None, None, None],
        ),
        (
            literals(true, 0x80, 0, StreamType::Int(8)),
            [Some(0x80), Some(0x80), Some(0x80)],
        ),
        (
            literals(false, 0x80, 0, StreamType::Int(8)),
            [None, None, None],
        ),
        (
            literals(
                true,
                0x8000_0000_0000_0000_0000_0000_0000_0000,
                0,
                StreamType::Int(128),
            ),
            [
                Some(0x8000_0000_0000_0000_0000_0000_0000_0000),
                Some(0x8000_0000_0000_0000_0000_0000_0000_0000),
                Some(0x8000_0000_0000_0000_0000_0000_0000_0000),
            ],
        ),
        (
            literals(
                true,
                0x8000_0000_0000_0000_0000_0000_0000_0001,
                0,
                StreamType::Int(128),
            ),
            [None, None, None],
        ),
        (
            literals(
                false,
                0x8000_0000_0000_0000_0000_0000_0000_0000,
                0,
                StreamType::Int(128),
            ),
            [None, None, None],
        ),
        (
            literals(false, 0x19, 1, fix(4, 0, true)),
            [Some(0x2), Some(0x3), Some(0x2)],
        ),
        (
            literals(true, 0x19, 1, fix(4, 0, true)),
            [Some(0xd), Some(0xe), Some(0xe)],
        ),
        (
            literals(false, 0x23, 1, fix(4, 0, true)),
            [Some(0x3), Some(0x4), Some(0x4)],
        ),
        (
            literals(false, 0x4b, 1, fix(4, 0, true)),
            [Some(0x7), None, None],
        ),
        (
            literals(true, 0x55, 1, fix(4, 0, true)),
            [None, Some(0x8), Some(0x8)],
        ),
        (
            literals(true, 0x4, 1, fix(4, 0, false)),
            [None, Some(0x0), Some(0x0)],
        ),
        (
            literals(
                false,
                0x3_f71a_741c_6eca_3534_911f_b797,
                29,
                fix(2, 126, false),
            ),
            [
                Some(0xc90f_daa2_2168_c234_c4c6_628b_50ac_a9e3),
                Some(0xc90f_daa2_2168_c234_c4c6_628b_50ac_a9e3),
                Some(0xc90f_daa2_2168_c234_c4c6_628b_50ac_a9e3),
            ],
        ),
        (
            literals(
                true,
                0x3_f71a_741c_6eca_3534_911f_b797,
                29,
                fix(3, 125, true),
            ),
            [
                Some(0x9b78_12ae_ef4b_9ee5_9d9c_ceba_57a9_ab0e),
                Some(0x9b78_12ae_ef4b_9ee5_9d9c_ceba_57a9_ab0e),
                Some(0x9b78_12ae_ef4b_9ee5_9d9c_ceba_57a9_ab0e),
            ],
        ),
        (
            literals(false, 0x1, 30, fix(0, 128, false)),
            [Some(0x1448_4bfe), Some(0x1448_4bff), Some(0x1448_4bff)],
        ),
        (
            literals(true, 0x5, 1, fix(0, 128, true)),
            [
                Some(0x8000_0000_0000_0000_0000_0000_0000_0000),
                Some(0x8000_0000_0000_0000_0000_0000_0000_0000),
                Some(0x8000_0000_0000_0000_0000_0000_0000_0000),
            ],
        ),
        (
            literals(false, 0x5, 1, fix(0, 128, true)),
            [None, None, None],
        ),
        (
            literals(
                false,
                0xc_9f2c_9cd0_4674_edea_3fff_ffff,
                30,
                fix(0, 1, false),
            ),
            [Some(0x1), None, None],
        ),
        (
            literals(
                false,
                0xffff_ffff_ffff_ffff_ffff_ffff_ffff_ffff,
                0,
                fix(127, 1, false),
            ),
            [None, None, None],
        ),
        (
            literals(
                false,
                0xffff_ffff_ffff_ffff_ffff_ffff_ffff_ffff,
                30,
                fix(64, 64, true),
            ),
            [
                Some(0x1448_4bfe_ebc2_9f86_3424_b06f),
                Some(0x1448_4bfe_ebc2_9f86_3424_b06f),
                Some(0x1448_4bfe_ebc2_9f86_3424_b06f),
            ],
        ),
        (
            literals(
                true,
                0xffff_ffff_ffff_ffff_ffff_ffff_ffff_ffff,
                30,
                fix(64, 64, true),
            ),
            [
                Some(0xffff_ffff_ebb7_b401_143d_6079_cbdb_4f90),
                Some(0xffff_ffff_ebb7_b401_143d_6079_cbdb_4f91),
                Some(0xffff_ffff_ebb7_b401_143d_6079_cbdb_4f91),
            ],
        ),
    ];
    for (found, wanted) in rows {
        for k in 0..3 {
            assert!(rt; found[k] == wanted[k]);
        }
    }
}

#[test]
fn the_least_fault_is_answered(rt: HostRuntime) {
    let (byte, signed) = (StreamType::UInt(8), StreamType::Int(8));
    let wide = fix(33, 32, true);
    let rows = [
        (result_type(Op::Add, &[byte, byte], 0), Ok(byte)),
        (result_type(Op::Lt, &[byte, byte], 0), Ok(StreamType::Bool)),
        (
            result_type(Op::Add, &[byte, StreamType::Bool], 0),
            Err(TypeError::TypesDiffer),
        ),
        (
            result_type(Op::Div, &[wide, wide], 0),
            Err(TypeError::NotForType(Op::Div)),
        ),
        (
            result_type(Op::Mul, &[wide, wide], 0),
            Err(TypeError::MulTooWide),
        ),
        (
            result_type(Op::Shl, &[byte], 128),
            Err(TypeError::ShiftRange(128)),
        ),
        (
            result_type(Op::Shr, &[wide], -1),
            Err(TypeError::NotForType(Op::Shr)),
        ),
        (
            result_type(Op::Mux, &[StreamType::Bool, byte, byte], 0),
            Ok(byte),
        ),
        (
            result_type(Op::Mux, &[StreamType::Bool, byte, byte, byte], 0),
            Err(TypeError::MuxCount(3)),
        ),
        (
            result_type(Op::Mux, &[signed], 0),
            Err(TypeError::NotForType(Op::Mux)),
        ),
        (
            result_type(Op::Mux, &[byte], 0),
            Err(TypeError::MuxCount(0)),
        ),
        (
            result_type(Op::Cast, &[byte, StreamType::Bool], 0),
            Err(TypeError::NotForType(Op::Cast)),
        ),
    ];
    for (found, wanted) in rows {
        assert!(rt; found == wanted);
    }
}
