// The operations at widths where their arithmetic could go wrong. The rows are printed by
// bench/vectors_arith.py.
ghost use Rattle.std.specs.Prelude.{◌≡◌, ◌≤◌, ◌+◌};

use fix_arith::{RoundMode, StreamType, apply};
use mx_bits::{Op, Word};
use std::test::Fail;

// The operations on two whole numbers, and those on one with a number of bits, in the order of
// `of_uint` and `of_int`.
const NAMES: [&str; 16] = [
    "add", "sub", "mul", "div", "and", "or", "xor", "not", "shl", "shr", "eq", "ne", "lt", "le",
    "gt", "ge",
];

fn bits(word: Option<Word>) -> Option<u128> {
    word.map(|w| w.bits())
}

fn of_uint(width: u8, a: Word, b: Word, k: u8) -> [Option<u128>; 16]
    requires some { 1 ≤ width }
    requires at_most { width ≤ 128 }
    requires first { a.width ≡ width }
    requires second { b.width ≡ width }
    requires shift { k ≤ 127 }
{
    let t = StreamType::UInt(width);
    [
        bits(apply(Op::Add, RoundMode::ToNear, &[t, t], &[a, b], 0, t)),
        bits(apply(Op::Sub, RoundMode::ToNear, &[t, t], &[a, b], 0, t)),
        bits(apply(Op::Mul, RoundMode::ToNear, &[t, t], &[a, b], 0, t)),
        bits(apply(Op::Div, RoundMode::ToNear, &[t, t], &[a, b], 0, t)),
        bits(apply(Op::And, RoundMode::ToNear, &[t, t], &[a, b], 0, t)),
        bits(apply(Op::Or, RoundMode::ToNear, &[t, t], &[a, b], 0, t)),
        bits(apply(Op::Xor, RoundMode::ToNear, &[t, t], &[a, b], 0, t)),
        bits(apply(Op::Not, RoundMode::ToNear, &[t], &[a], k, t)),
        bits(apply(Op::Shl, RoundMode::ToNear, &[t], &[a], k, t)),
        bits(apply(Op::Shr, RoundMode::ToNear, &[t], &[a], k, t)),
        bits(apply(
            Op::Eq,
            RoundMode::ToNear,
            &[t, t],
            &[a, b],
            0,
            StreamType::Bool,
        )),
        bits(apply(
            Op::Ne,
            RoundMode::ToNear,
            &[t, t],
            &[a, b],
            0,
            StreamType::Bool,
        )),
        bits(apply(
            Op::Lt,
            RoundMode::ToNear,
            &[t, t],
            &[a, b],
            0,
            StreamType::Bool,
        )),
        bits(apply(
            Op::Le,
            RoundMode::ToNear,
            &[t, t],
            &[a, b],
            0,
            StreamType::Bool,
        )),
        bits(apply(
            Op::Gt,
            RoundMode::ToNear,
            &[t, t],
            &[a, b],
            0,
            StreamType::Bool,
        )),
        bits(apply(
            Op::Ge,
            RoundMode::ToNear,
            &[t, t],
            &[a, b],
            0,
            StreamType::Bool,
        )),
    ]
}

fn of_int(width: u8, a: Word, b: Word, k: u8) -> [Option<u128>; 16]
    requires some { 1 ≤ width }
    requires at_most { width ≤ 128 }
    requires first { a.width ≡ width }
    requires second { b.width ≡ width }
    requires shift { k ≤ 127 }
{
    let t = StreamType::Int(width);
    [
        bits(apply(Op::Add, RoundMode::ToNear, &[t, t], &[a, b], 0, t)),
        bits(apply(Op::Sub, RoundMode::ToNear, &[t, t], &[a, b], 0, t)),
        bits(apply(Op::Mul, RoundMode::ToNear, &[t, t], &[a, b], 0, t)),
        bits(apply(Op::Div, RoundMode::ToNear, &[t, t], &[a, b], 0, t)),
        bits(apply(Op::And, RoundMode::ToNear, &[t, t], &[a, b], 0, t)),
        bits(apply(Op::Or, RoundMode::ToNear, &[t, t], &[a, b], 0, t)),
        bits(apply(Op::Xor, RoundMode::ToNear, &[t, t], &[a, b], 0, t)),
        bits(apply(Op::Not, RoundMode::ToNear, &[t], &[a], k, t)),
        bits(apply(Op::Shl, RoundMode::ToNear, &[t], &[a], k, t)),
        bits(apply(Op::Shr, RoundMode::ToNear, &[t], &[a], k, t)),
        bits(apply(
            Op::Eq,
            RoundMode::ToNear,
            &[t, t],
            &[a, b],
            0,
            StreamType::Bool,
        )),
        bits(apply(
            Op::Ne,
            RoundMode::ToNear,
            &[t, t],
            &[a, b],
            0,
            StreamType::Bool,
        )),
        bits(apply(
            Op::Lt,
            RoundMode::ToNear,
            &[t, t],
            &[a, b],
            0,
            StreamType::Bool,
        )),
        bits(apply(
            Op::Le,
            RoundMode::ToNear,
            &[t, t],
            &[a, b],
            0,
            StreamType::Bool,
        )),
        bits(apply(
            Op::Gt,
            RoundMode::ToNear,
            &[t, t],
            &[a, b],
            0,
            StreamType::Bool,
        )),
        bits(apply(
            Op::Ge,
            RoundMode::ToNear,
            &[t, t],
            &[a, b],
            0,
            StreamType::Bool,
        )),
    ]
}

fn opposite(width: u8, a: Word) -> Option<u128>
    requires some { 1 ≤ width }
    requires at_most { width ≤ 128 }
    requires word { a.width ≡ width }
{
    let t = StreamType::Int(width);
    bits(apply(Op::Neg, RoundMode::ToNear, &[t], &[a], 0, t))
}

fn products(whole: u8, frac: u8, signed: bool, a: Word, b: Word) -> [Option<u128>; 3]
    requires some { 1 ≤ whole + frac }
    requires at_most { whole + frac ≤ 64 }
    requires first { a.width ≡ whole + frac }
    requires second { b.width ≡ whole + frac }
{
    let t = StreamType::Fix {
        whole,
        frac,
        signed,
    };
    [
        bits(apply(Op::Mul, RoundMode::Truncate, &[t, t], &[a, b], 0, t)),
        bits(apply(Op::Mul, RoundMode::ToNear, &[t, t], &[a, b], 0, t)),
        bits(apply(Op::Mul, RoundMode::ToNearEven, &[t, t], &[a, b], 0, t)),
    ]
}

#[test]
fn whole_numbers_follow_the_table(rt: HostRuntime) {
    let rows = [
        (
            of_uint(1, Word::new(0x0, 1), Word::new(0x0, 1), 0),
            [
                Some(0x0),
                Some(0x0),
                Some(0x0),
                None,
                Some(0x0),
                Some(0x0),
                Some(0x0),
                Some(0x1),
                Some(0x0),
                Some(0x0),
                Some(0x1),
                Some(0x0),
                Some(0x0),
                Some(0x1),
                Some(0x0),
                Some(0x1),
            ],
        ),
        (
            of_uint(8, Word::new(0x7c, 8), Word::new(0x35, 8), 8),
            [
                Some(0xb1),
                Some(0x47),
                Some(0xac),
                Some(0x2),
                Some(0x34),
                Some(0x7d),
                Some(0x49),
                Some(0x83),
                Some(0x0),
                Some(0x0),
                Some(0x0),
                Some(0x1),
                Some(0x0),
                Some(0x0),
                Some(0x1),
                Some(0x1),
            ],
        ),
        (
            of_uint(8, Word::new(0x5, 8), Word::new(0x0, 8), 8),
            [
                Some(0x5),
                Some(0x5),
                Some(0x0),
                None,
                Some(0x0),
                Some(0x5),
                Some(0x5),
                Some(0xfa),
                Some(0x0),
                Some(0x0),
                Some(0x0),
                Some(0x1),
                Some(0x0),
                Some(0x0),
                Some(0x1),
                Some(0x1),
            ],
        ),
        (
            of_uint(
                64,
                Word::new(0x3c80_be0e_18d6_868a, 64),
                Word::new(0xf3b2_43ce_7229_3c03, 64),
                32,
            ),
            [
                Some(0x3033_01dc_8aff_c28d),
                Some(0x48ce_7a3f_a6ad_4a87),
                Some(0x4529_6b4d_9225_eb9e),
                Some(0x0),
                Some(0x3080_020e_1000_0402),
                Some(0xffb2_ffce_7aff_be8b),
                Some(0xcf32_fdc0_6aff_ba89),
                Some(0xc37f_41f1_e729_7975),
                Some(0x18d6_868a_0000_0000),
                Some(0x3c80_be0e),
                Some(0x0),
                Some(0x1),
                Some(0x1),
                Some(0x1),
                Some(0x0),
                Some(0x0),
            ],
        ),
        (
            of_uint(
                65,
                Word::new(0x1_f8aa_726b_6677_8a47, 65),
                Word::new(0x1d58_88a1_d225_d284, 65),
                0,
            ),
            [
                Some(0x1602_fb0d_389d_5ccb),
                Some(0x1_db51_e9c9_9451_b7c3),
                Some(0x1_335e_a6cb_1f54_8a9c),
                Some(0x11),
                Some(0x1808_0021_4225_8204),
                Some(0x1_fdfa_faeb_f677_dac7),
                Some(0x1_e5f2_faca_b452_58c3),
                Some(0x755_8d94_9988_75b8),
                Some(0x1_f8aa_726b_6677_8a47),
                Some(0x1_f8aa_726b_6677_8a47),
                Some(0x0),
                Some(0x1),
                Some(0x0),
                Some(0x0),
                Some(0x1),
                Some(0x1),
            ],
        ),
        (
            of_uint(
                127,
                Word::new(0x5c_fcd9_f01e_8e03_fb80_1672_c94e_9003, 127),
                Word::new(0x330e_e2ed_29de_43e7_43c3_786b_9172_79b0, 127),
                1,
            ),
            [
                Some(0x336b_dfc7_19fc_d1eb_3f43_8ede_5ac1_09b3),
                Some(0x4d4e_19ec_c640_4a1c_b7bc_9e07_37dc_1653),
                Some(0x26f5_d299_e5b7_e2f1_e86f_6ddf_5c6a_6d10),
                Some(0x0),
                Some(0xc_e0c9_201e_0203_4380_1062_8142_1000),
                Some(0x335e_fefd_f9de_cfe7_fbc3_7e7b_d97e_f9b3),
                Some(0x3352_1e34_d9c0_cde4_b843_6e19_583c_e9b3),
                Some(0x7fa3_0326_0fe1_71fc_047f_e98d_36b1_6ffc),
                Some(0xb9_f9b3_e03d_1c07_f700_2ce5_929d_2006),
                Some(0x2e_7e6c_f80f_4701_fdc0_0b39_64a7_4801),
                Some(0x0),
                Some(0x1),
                Some(0x1),
                Some(0x1),
                Some(0x0),
                Some(0x0),
            ],
        ),
        (
            of_uint(
                128,
                Word::new(0x7ab0_e6be_e366_b86c_102c_3a2e_0815_21bc, 128),
                Word::new(0x73c9_c493_c102_c6f9_2956_a7bc_f294_99b7, 128),
                0,
            ),
            [
                Some(0xee7a_ab52_a469_7f65_3982_e1ea_faa9_bb73),
                Some(0x6e7_222b_2263_f172_e6d5_9271_1580_8805),
                Some(0x675c_8abe_91b7_a5eb_4e52_29e7_a0f4_7964),
                Some(0x1),
                Some(0x7280_c492_c102_8068_0004_222c_0014_01b4),
                Some(0x7bf9_e6bf_e366_fefd_397e_bfbe_fa95_b9bf),
                Some(0x979_222d_2264_7e95_397a_9d92_fa81_b80b),
                Some(0x854f_1941_1c99_4793_efd3_c5d1_f7ea_de43),
                Some(0x7ab0_e6be_e366_b86c_102c_3a2e_0815_21bc),
                Some(0x7ab0_e6be_e366_b86c_102c_3a2e_0815_21bc),
                Some(0x0),
                Some(0x1),
                Some(0x0),
                Some(0x0),
                Some(0x1),
                Some(0x1),
            ],
        ),
        (
            of_int(1, Word::new(0x0, 1), Word::new(0x0, 1), 0),
            [
                Some(0x0),
                Some(0x0),
                Some(0x0),
                None,
                Some(0x0),
                Some(0x0),
                Some(0x0),
                Some(0x1),
                Some(0x0),
                Some(0x0),
                Some(0x1),
                Some(0x0),
                Some(0x0),
                Some(0x1),
                Some(0x0),
                Some(0x1),
            ],
        ),
        (
            of_int(8, Word::new(0x80, 8), Word::new(0xff, 8), 0),
            [
                Some(0x7f),
                Some(0x81),
                Some(0x80),
                Some(0x80),
                Some(0x80),
                Some(0xff),
                Some(0x7f),
                Some(0x7f),
                Some(0x80),
                Some(0x80),
                Some(0x0),
                Some(0x1),
                Some(0x1),
                Some(0x1),
                Some(0x0),
                Some(0x0),
            ],
        ),
        (
            of_int(8, Word::new(0x5, 8), Word::new(0x0, 8), 4),
            [
                Some(0x5),
                Some(0x5),
                Some(0x0),
                None,
                Some(0x0),
                Some(0x5),
                Some(0x5),
                Some(0xfa),
                Some(0x50),
                Some(0x0),
                Some(0x0),
                Some(0x1),
                Some(0x0),
                Some(0x0),
                Some(0x1),
                Some(0x1),
            ],
        ),
        (
            of_int(
                64,
                Word::new(0x62_cb5a_f5b3_c6b5, 64),
                Word::new(0x8c4d_7e3f_7fca_4386, 64),
                32,
            ),
            [
                Some(0x8cb0_499a_757e_0a3b),
                Some(0x7415_4d1b_75e9_832f),
                Some(0x5815_4be4_3eed_61be),
                Some(0x0),
                Some(0x40_4a1a_7582_4284),
                Some(0x8c6f_ff7f_fffb_c7b7),
                Some(0x8c2f_b565_8a79_8533),
                Some(0xff9d_34a5_0a4c_394a),
                Some(0xf5b3_c6b5_0000_0000),
                Some(0x62_cb5a),
                Some(0x0),
                Some(0x1),
                Some(0x0),
                Some(0x0),
                Some(0x1),
                Some(0x1),
            ],
        ),
        (
            of_int(
                65,
                Word::new(0x1_0000_0000_0000_0000, 65),
                Word::new(0x1_ffff_ffff_ffff_ffff, 65),
                32,
            ),
            [
                Some(0xffff_ffff_ffff_ffff),
                Some(0x1_0000_0000_0000_0001),
                Some(0x1_0000_0000_0000_0000),
                Some(0x1_0000_0000_0000_0000),
                Some(0x1_0000_0000_0000_0000),
                Some(0x1_ffff_ffff_ffff_ffff),
                Some(0xffff_ffff_ffff_ffff),
                Some(0xffff_ffff_ffff_ffff),
                Some(0x0),
                Some(0x1_ffff_ffff_0000_0000),
                Some(0x0),
                Some(0x1),
                Some(0x1),
                Some(0x1),
                Some(0x0),
                Some(0x0),
            ],
        ),
        (
            of_int(
                127,
                Word::new(0x3cc4_ceca_a637_ea7f_1318_736b_6116_514c, 127),
                Word::new(0x3937_f556_5979_e930_ce14_0186_1d1c_90e3, 127),
                127,
            ),
            [
                Some(0x75fc_c420_ffb1_d3af_e12c_74f1_7e32_e22f),
                Some(0x38c_d974_4cbe_014e_4504_71e5_43f9_c069),
                Some(0xb13_5816_c369_102a_e348_be42_24d4_d664),
                Some(0x1),
                Some(0x3804_c442_0031_e830_0210_0102_0114_1040),
                Some(0x3df7_ffde_ff7f_eb7f_df1c_73ef_7d1e_d1ef),
                Some(0x5f3_3b9c_ff4e_034f_dd0c_72ed_7c0a_c1af),
                Some(0x433b_3135_59c8_1580_ece7_8c94_9ee9_aeb3),
                Some(0x0),
                Some(0x0),
                Some(0x0),
                Some(0x1),
                Some(0x0),
                Some(0x0),
                Some(0x1),
                Some(0x1),
            ],
        ),
        (
            of_int(
                128,
                Word::new(0x8000_0000_0000_0000_0000_0000_0000_0000, 128),
                Word::new(0xffff_ffff_ffff_ffff_ffff_ffff_ffff_ffff, 128),
                1,
            ),
            [
                Some(0x7fff_ffff_ffff_ffff_ffff_ffff_ffff_ffff),
                Some(0x8000_0000_0000_0000_0000_0000_0000_0001),
                Some(0x8000_0000_0000_0000_0000_0000_0000_0000),
                Some(0x8000_0000_0000_0000_0000_0000_0000_0000),
                Some(0x8000_0000_0000_0000_0000_0000_0000_0000),
                Some(0xffff_ffff_ffff_ffff_ffff_ffff_ffff_ffff),
                Some(0x7fff_ffff_ffff_ffff_ffff_ffff_ffff_ffff),
                Some(0x7fff_ffff_ffff_ffff_ffff_ffff_ffff_ffff),
                Some(0x0),
                Some(0xc000_0000_0000_0000_0000_0000_0000_0000),
                Some(0x0),
                Some(0x1),
                Some(0x1),
                Some(0x1),
                Some(0x0),
                Some(0x0),
            ],
        ),
    ];
    for (found, wanted) in rows {
        for k in 0..16 {
            assert!(rt; found[k] == wanted[k], "{}", NAMES[k]);
        }
    }
}

#[test]
fn opposites_are_taken_modulo_the_width(rt: HostRuntime) {
    let rows = [
        (opposite(1, Word::new(0x1, 1)), Some(0x1)),
        (opposite(1, Word::new(0x1, 1)), Some(0x1)),
        (opposite(8, Word::new(0x80, 8)), Some(0x80)),
        (opposite(8, Word::new(0xc8, 8)), Some(0x38)),
        (
            opposite(64, Word::new(0x8000_0000_0000_0000, 64)),
            Some(0x8000_0000_0000_0000),
        ),
        (
            opposite(64, Word::new(0x2fe2_11b8_7883_479e, 64)),
            Some(0xd01d_ee47_877c_b862),
        ),
        (
            opposite(65, Word::new(0x1_0000_0000_0000_0000, 65)),
            Some(0x1_0000_0000_0000_0000),
        ),
        (
            opposite(65, Word::new(0xe36f_6b65_becc_8b93, 65)),
            Some(0x1_1c90_949a_4133_746d),
        ),
        (
            opposite(
                127,
                Word::new(0x4000_0000_0000_0000_0000_0000_0000_0000, 127),
            ),
            Some(0x4000_0000_0000_0000_0000_0000_0000_0000),
        ),
        (
            opposite(
                127,
                Word::new(0x3de_ebee_d778_2102_38ee_23d9_bfd6_b0ee, 127),
            ),
            Some(0x7c21_1411_2887_defd_c711_dc26_4029_4f12),
        ),
        (
            opposite(
                128,
                Word::new(0x8000_0000_0000_0000_0000_0000_0000_0000, 128),
            ),
            Some(0x8000_0000_0000_0000_0000_0000_0000_0000),
        ),
        (
            opposite(
                128,
                Word::new(0x74e6_f3f7_36a0_524d_98cb_1774_2839_2fa3, 128),
            ),
            Some(0x8b19_0c08_c95f_adb2_6734_e88b_d7c6_d05d),
        ),
    ];
    for (found, wanted) in rows {
        assert!(rt; found == wanted);
    }
}

#[test]
fn products_are_rounded(rt: HostRuntime) {
    let rows = [
        (
            products(0, 1, false, Word::new(0x1, 1), Word::new(0x1, 1)),
            [Some(0x0), Some(0x1), Some(0x0)],
        ),
        (
            products(1, 0, true, Word::new(0x1, 1), Word::new(0x1, 1)),
            [Some(0x1), Some(0x1), Some(0x1)],
        ),
        (
            products(4, 4, true, Word::new(0x28, 8), Word::new(0x38, 8)),
            [Some(0x8c), Some(0x8c), Some(0x8c)],
        ),
        (
            products(4, 4, true, Word::new(0xd8, 8), Word::new(0xc, 8)),
            [Some(0xe2), Some(0xe2), Some(0xe2)],
        ),
        (
            products(4, 4, false, Word::new(0xd8, 8), Word::new(0xc, 8)),
            [Some(0xa2), Some(0xa2), Some(0xa2)],
        ),
        (
            products(0, 8, true, Word::new(0x80, 8), Word::new(0x80, 8)),
            [Some(0x40), Some(0x40), Some(0x40)],
        ),
        (
            products(8, 0, true, Word::new(0x80, 8), Word::new(0xff, 8)),
            [Some(0x80), Some(0x80), Some(0x80)],
        ),
        (
            products(
                0,
                64,
                false,
                Word::new(0xffff_ffff_ffff_ffff, 64),
                Word::new(0xffff_ffff_ffff_ffff, 64),
            ),
            [
                Some(0xffff_ffff_ffff_fffe),
                Some(0xffff_ffff_ffff_fffe),
                Some(0xffff_ffff_ffff_fffe),
            ],
        ),
        (
            products(
                0,
                64,
                true,
                Word::new(0x8000_0000_0000_0000, 64),
                Word::new(0x8000_0000_0000_0000, 64),
            ),
            [
                Some(0x4000_0000_0000_0000),
                Some(0x4000_0000_0000_0000),
                Some(0x4000_0000_0000_0000),
            ],
        ),
        (
            products(
                32,
                32,
                true,
                Word::new(0x8000_0000_0000_0000, 64),
                Word::new(0xffff_ffff_ffff_ffff, 64),
            ),
            [Some(0x8000_0000), Some(0x8000_0000), Some(0x8000_0000)],
        ),
        (
            products(
                32,
                32,
                true,
                Word::new(0x88be_03cf_27cd_f57a, 64),
                Word::new(0xeef1_4413_e664_4cb9, 64),
            ),
            [
                Some(0x3901_4a7c_0278_7792),
                Some(0x3901_4a7c_0278_7792),
                Some(0x3901_4a7c_0278_7792),
            ],
        ),
        (
            products(
                60,
                4,
                true,
                Word::new(0xd91f_2f5b_3c93_4263, 64),
                Word::new(0x8, 64),
            ),
            [
                Some(0xec8f_97ad_9e49_a131),
                Some(0xec8f_97ad_9e49_a132),
                Some(0xec8f_97ad_9e49_a132),
            ],
        ),
        (
            products(
                63,
                1,
                false,
                Word::new(0xffff_ffff_ffff_ffff, 64),
                Word::new(0x1, 64),
            ),
            [
                Some(0x7fff_ffff_ffff_ffff),
                Some(0x8000_0000_0000_0000),
                Some(0x8000_0000_0000_0000),
            ],
        ),
    ];
    for (found, wanted) in rows {
        for k in 0..3 {
            assert!(rt; found[k] == wanted[k]);
        }
    }
}
