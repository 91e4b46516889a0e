// Casts at widths where their arithmetic could go wrong. The rows are printed by
// bench/vectors_arith.py.
ghost use Rattle.std.specs.Prelude.{◌≡◌};
ghost use Rattle.fix_arith.specs.Types.{width_of, HasWidth};

use fix_arith::{RoundMode, StreamType, cast};
use mx_bits::Word;
use std::test::Fail;

fn fix(whole: u8, frac: u8, signed: bool) -> StreamType
    ensures { result ≡ StreamType.Fix whole frac signed }
{
    StreamType::Fix {
        whole,
        frac,
        signed,
    }
}

fn casts(word: Word, from: StreamType, to: StreamType) -> [u128; 3]
    requires from { HasWidth from }
    requires to { HasWidth to }
    requires word { word.width ≡ width_of from }
{
    [
        cast(word, from, to, RoundMode::Truncate).bits(),
        cast(word, from, to, RoundMode::ToNear).bits(),
        cast(word, from, to, RoundMode::ToNearEven).bits(),
    ]
}

#[test]
fn casts_are_rounded_and_reduced(rt: HostRuntime) {
    let rows = [
        (
            casts(Word::new(0x28, 8), fix(4, 4, true), fix(4, 0, true)),
            [0x2, 0x3, 0x2],
        ),
        (
            casts(Word::new(0x38, 8), fix(4, 4, true), fix(4, 0, true)),
            [0x3, 0x4, 0x4],
        ),
        (
            casts(Word::new(0xd8, 8), fix(4, 4, true), fix(4, 0, true)),
            [0xd, 0xe, 0xe],
        ),
        (
            casts(Word::new(0x1, 1), StreamType::Bool, StreamType::Int(8)),
            [0x1, 0x1, 0x1],
        ),
        (
            casts(Word::new(0x1, 1), StreamType::UInt(1), StreamType::Bool),
            [0x1, 0x1, 0x1],
        ),
        (
            casts(Word::new(0x1, 1), fix(0, 1, true), StreamType::Bool),
            [0x1, 0x0, 0x0],
        ),
        (
            casts(
                Word::new(0x80, 8),
                StreamType::Int(8),
                StreamType::UInt(128),
            ),
            [
                0xffff_ffff_ffff_ffff_ffff_ffff_ffff_ff80,
                0xffff_ffff_ffff_ffff_ffff_ffff_ffff_ff80,
                0xffff_ffff_ffff_ffff_ffff_ffff_ffff_ff80,
            ],
        ),
        (
            casts(
                Word::new(0x8000_0000_0000_0000_0000_0000_0000_0005, 128),
                StreamType::Int(128),
                StreamType::UInt(8),
            ),
            [0x5, 0x5, 0x5],
        ),
        (
            casts(
                Word::new(0x8000_0000_0000_0000_0000_0000_0000_0000, 128),
                fix(0, 128, false),
                StreamType::UInt(8),
            ),
            [0x0, 0x1, 0x0],
        ),
        (
            casts(
                Word::new(0xffff_ffff_ffff_ffff_ffff_ffff_ffff_ffff, 128),
                fix(0, 128, false),
                StreamType::UInt(8),
            ),
            [0x0, 0x1, 0x1],
        ),
        (
            casts(
                Word::new(0x8000_0000_0000_0000_0000_0000_0000_0000, 128),
                fix(0, 128, true),
                StreamType::Int(8),
            ),
            [0xff, 0x0, 0x0],
        ),
        (
            casts(
                Word::new(0x8000_0000_0000_0000_0000_0000_0000_0001, 128),
                fix(0, 128, true),
                StreamType::Int(8),
            ),
            [0xff, 0x0, 0x0],
        ),
        (
            casts(
                Word::new(0xc000_0000_0000_0000_0000_0000_0000_0000, 128),
                fix(1, 127, true),
                StreamType::Int(64),
            ),
            [0xffff_ffff_ffff_ffff, 0x0, 0x0],
        ),
        (
            casts(
                Word::new(0xc000_0000_0000_0000_0000_0000_0000_0000, 128),
                fix(1, 127, false),
                StreamType::UInt(65),
            ),
            [0x1, 0x2, 0x2],
        ),
        (
            casts(
                Word::new(0xffff_ffff_ffff_ffff_ffff_ffff_ffff_ffff, 128),
                StreamType::UInt(128),
                fix(0, 128, false),
            ),
            [0x0, 0x0, 0x0],
        ),
        (
            casts(
                Word::new(0x1_0000_0000_0000_0001, 65),
                StreamType::Int(65),
                fix(1, 127, true),
            ),
            [
                0x8000_0000_0000_0000_0000_0000_0000_0000,
                0x8000_0000_0000_0000_0000_0000_0000_0000,
                0x8000_0000_0000_0000_0000_0000_0000_0000,
            ],
        ),
        (
            casts(
                Word::new(0x1_ffff_ffff_ffff_ffff, 65),
                fix(63, 2, true),
                fix(64, 1, true),
            ),
            [0x1_ffff_ffff_ffff_ffff, 0x0, 0x0],
        ),
        (
            casts(
                Word::new(0x16a1_958f_d259_9b3b_a2b0_8b2e_3604_4d00, 127),
                fix(100, 27, true),
                fix(60, 3, true),
            ),
            [
                0x599b_3ba2_b08b_2e36,
                0x599b_3ba2_b08b_2e36,
                0x599b_3ba2_b08b_2e36,
            ],
        ),
        (
            casts(
                Word::new(0xa9f7_090c_bfdc_52a9_9be7_4bab_4973_d07e, 128),
                fix(64, 64, true),
                fix(120, 8, true),
            ),
            [
                0xffff_ffff_ffff_ffa9_f709_0cbf_dc52_a99b,
                0xffff_ffff_ffff_ffa9_f709_0cbf_dc52_a99c,
                0xffff_ffff_ffff_ffa9_f709_0cbf_dc52_a99c,
            ],
        ),
        (
            casts(
                Word::new(0x9774_df38_5ce7_a40d_5694_757d_fe19_3e01, 128),
                fix(64, 64, false),
                fix(1, 127, false),
            ),
            [
                0xab4a_3abe_ff0c_9f00_8000_0000_0000_0000,
                0xab4a_3abe_ff0c_9f00_8000_0000_0000_0000,
                0xab4a_3abe_ff0c_9f00_8000_0000_0000_0000,
            ],
        ),
    ];
    for (found, wanted) in rows {
        for k in 0..3 {
            assert!(rt; found[k] == wanted[k]);
        }
    }
}
