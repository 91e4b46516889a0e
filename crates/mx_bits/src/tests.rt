// Values that were computed elsewhere, at the widths where the arithmetic could go wrong.
ghost use Rattle.std.specs.Prelude.{◌≡◌, ◌<◌};

use crate::Word;
use std::test::Fail;

// The number of each call on two words, in the order of `of_two`.
const CALLS: [&str; 11] = [
    "add",
    "sub",
    "sub turned",
    "mul",
    "div",
    "and",
    "or",
    "xor",
    "not",
    "lt turned",
    "eq",
];

fn of_two(a: Word, b: Word) -> [u128; 11]
    requires widths { a.width ≡ b.width }
    requires divisor { 0 < b.bits }
{
    [
        a.add(b).bits(),
        a.sub(b).bits(),
        b.sub(a).bits(),
        a.mul(b).bits(),
        a.div(b).bits(),
        a.and(b).bits(),
        a.or(b).bits(),
        a.xor(b).bits(),
        a.not().bits(),
        b.lt(a).bits(),
        a.eq(b).bits(),
    ]
}

#[test]
fn words_are_numbers_modulo_their_width(rt: HostRuntime) {
    let rows = [
        (
            of_two(Word::new(0x1, 1), Word::new(0x1, 1)),
            [0x0, 0x0, 0x0, 0x1, 0x1, 0x1, 0x1, 0x0, 0x0, 0x0, 0x1],
        ),
        (
            of_two(Word::new(0xc5, 8), Word::new(0x93, 8)),
            [
                0x58, 0x32, 0xce, 0x1f, 0x1, 0x81, 0xd7, 0x56, 0x3a, 0x1, 0x0,
            ],
        ),
        (
            of_two(
                Word::new(0xfedc_ba98_7654_3210, 64),
                Word::new(0x8000_0000_0000_0003, 64),
            ),
            [
                0x7edc_ba98_7654_3213,
                0x7edc_ba98_7654_320d,
                0x8123_4567_89ab_cdf3,
                0xfc96_2fc9_62fc_9630,
                0x1,
                0x8000_0000_0000_0000,
                0xfedc_ba98_7654_3213,
                0x7edc_ba98_7654_3213,
                0x123_4567_89ab_cdef,
                0x1,
                0x0,
            ],
        ),
        (
            of_two(
                Word::new(0x1_fedc_ba98_7654_3210, 65),
                Word::new(0x1_0000_0000_0000_0003, 65),
            ),
            [
                0xfedc_ba98_7654_3213,
                0xfedc_ba98_7654_320d,
                0x1_0123_4567_89ab_cdf3,
                0x1_fc96_2fc9_62fc_9630,
                0x1,
                0x1_0000_0000_0000_0000,
                0x1_fedc_ba98_7654_3213,
                0xfedc_ba98_7654_3213,
                0x123_4567_89ab_cdef,
                0x1,
                0x0,
            ],
        ),
        (
            of_two(
                Word::new(0x7edc_ba98_7654_3210_0123_4567_89ab_cdef, 127),
                Word::new(0x4000_0000_0000_0000_0000_0000_0000_0003, 127),
            ),
            [
                0x3edc_ba98_7654_3210_0123_4567_89ab_cdf2,
                0x3edc_ba98_7654_3210_0123_4567_89ab_cdec,
                0x4123_4567_89ab_cdef_fedc_ba98_7654_3214,
                0x3c96_2fc9_62fc_9630_0369_d036_9d03_69cd,
                0x1,
                0x4000_0000_0000_0000_0000_0000_0000_0003,
                0x7edc_ba98_7654_3210_0123_4567_89ab_cdef,
                0x3edc_ba98_7654_3210_0123_4567_89ab_cdec,
                0x123_4567_89ab_cdef_fedc_ba98_7654_3210,
                0x1,
                0x0,
            ],
        ),
        (
            of_two(
                Word::new(0xfedc_ba98_7654_3210_0123_4567_89ab_cdef, 128),
                Word::new(0x8000_0000_0000_0000_0000_0000_0000_0003, 128),
            ),
            [
                0x7edc_ba98_7654_3210_0123_4567_89ab_cdf2,
                0x7edc_ba98_7654_3210_0123_4567_89ab_cdec,
                0x8123_4567_89ab_cdef_fedc_ba98_7654_3214,
                0x7c96_2fc9_62fc_9630_0369_d036_9d03_69cd,
                0x1,
                0x8000_0000_0000_0000_0000_0000_0000_0003,
                0xfedc_ba98_7654_3210_0123_4567_89ab_cdef,
                0x7edc_ba98_7654_3210_0123_4567_89ab_cdec,
                0x123_4567_89ab_cdef_fedc_ba98_7654_3210,
                0x1,
                0x0,
            ],
        ),
    ];
    for (found, wanted) in rows {
        for k in 0..11 {
            assert_eq!(rt; found[k], wanted[k], "{}", CALLS[k]);
        }
    }
}

#[test]
fn words_are_joined_and_cut(rt: HostRuntime) {
    let rows = [
        (
            Word::new(0x1, 1).concat(Word::new(0x0, 1)),
            Word::new(0x2, 2),
        ),
        (
            Word::new(0xa, 4).concat(Word::new(0x5, 4)),
            Word::new(0xa5, 8),
        ),
        (
            Word::new(0x1, 1).concat(Word::new(0x5, 63)),
            Word::new(0x8000_0000_0000_0005, 64),
        ),
        (
            Word::new(0xfedc_ba98_7654_3210, 64).concat(Word::new(0x1, 1)),
            Word::new(0x1_fdb9_7530_eca8_6421, 65),
        ),
        (
            Word::new(0x7edc_ba98_7654_3210, 63).concat(Word::new(0x123_4567_89ab_cdef, 64)),
            Word::new(0x7edc_ba98_7654_3210_0123_4567_89ab_cdef, 127),
        ),
        (
            Word::new(0xfe_dcba_9876_5432_1001_2345_6789_abcd, 120).concat(Word::new(0xef, 8)),
            Word::new(0xfedc_ba98_7654_3210_0123_4567_89ab_cdef, 128),
        ),
        (Word::new(0x1, 1).part(0, 0), Word::new(0x1, 1)),
        (Word::new(0xc5, 8).part(6, 2), Word::new(0x11, 5)),
        (
            Word::new(0xfedc_ba98_7654_3210, 64).part(63, 60),
            Word::new(0xf, 4),
        ),
        (
            Word::new(0x1_fedc_ba98_7654_3210, 65).part(64, 1),
            Word::new(0xff6e_5d4c_3b2a_1908, 64),
        ),
        (
            Word::new(0x7edc_ba98_7654_3210_0123_4567_89ab_cdef, 127).part(100, 37),
            Word::new(0xc3b2_a190_8009_1a2b, 64),
        ),
        (
            Word::new(0xfedc_ba98_7654_3210_0123_4567_89ab_cdef, 128).part(127, 0),
            Word::new(0xfedc_ba98_7654_3210_0123_4567_89ab_cdef, 128),
        ),
        (
            Word::new(0xfedc_ba98_7654_3210_0123_4567_89ab_cdef, 128).part(127, 64),
            Word::new(0xfedc_ba98_7654_3210, 64),
        ),
        (Word::new(0x1, 1).repeat(1), Word::new(0x1, 1)),
        (Word::new(0xa, 4).repeat(2), Word::new(0xaa, 8)),
        (
            Word::new(0x1, 1).repeat(64),
            Word::new(0xffff_ffff_ffff_ffff, 64),
        ),
        (
            Word::new(0x1abc, 13).repeat(5),
            Word::new(0x1_abcd_5e6a_f357_9abc, 65),
        ),
        (
            Word::new(0x1, 1).repeat(127),
            Word::new(0x7fff_ffff_ffff_ffff_ffff_ffff_ffff_ffff, 127),
        ),
        (
            Word::new(0xfedc_ba98, 32).repeat(4),
            Word::new(0xfedc_ba98_fedc_ba98_fedc_ba98_fedc_ba98, 128),
        ),
        (
            Word::new(0xfedc_ba98_7654_3210_0123_4567_89ab_cdef, 128).repeat(1),
            Word::new(0xfedc_ba98_7654_3210_0123_4567_89ab_cdef, 128),
        ),
    ];
    for (found, wanted) in rows {
        assert_eq!(rt; found, wanted);
        assert_eq!(rt; found.width(), wanted.width());
    }
}
