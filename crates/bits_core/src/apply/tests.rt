// Each number below comes from another program, written in Python from the definitions.

use super::{DivZero, binary, divide, unary};
use crate::ops::{Binary, Divide, Unary};
use crate::word::{Width, Word};
use std::process::Abort;

fn width(rt: &impl Abort, bytes: u8) -> Width {
    Width::new(bytes).expect(rt, "a width")
}

fn word(rt: &impl Abort, value: u128, bytes: u8) -> Word {
    Word::new(value, width(rt, bytes))
}

#[test]
fn named_values(rt: HostRuntime) {
    let rows: [(Binary, u128, u8, u128, u8, u8, u128); 20] = [
        (Binary::Left, 1, 4, 31, 8, 4, 0x8000_0000),
        (Binary::Left, 1, 4, 32, 8, 4, 0),
        (Binary::Left, 1, 4, 0xffff_ffff_ffff_ffff, 8, 4, 0),
        (Binary::Right, 0x8000_0000, 4, 31, 1, 4, 1),
        (Binary::Right, 0x8000_0000, 4, 32, 1, 4, 0),
        (Binary::SignedRight, 0x80, 1, 200, 1, 1, 0xff),
        (Binary::SignedRight, 0x7f, 1, 200, 1, 1, 0),
        (Binary::Multiply, u128::MAX, 16, u128::MAX, 16, 16, 1),
        (Binary::Add, 255, 1, 1, 1, 1, 0),
        (Binary::Subtract, 0, 3, 1, 3, 3, 0xff_ffff),
        (Binary::Carry, 255, 1, 1, 1, 1, 1),
        (Binary::SignedCarry, 0x7f, 1, 1, 1, 1, 1),
        (Binary::SignedBorrow, 0x7f, 1, 1, 1, 1, 0),
        (Binary::SignedBorrow, 0x80, 1, 1, 1, 1, 1),
        (Binary::Less, 0x8000, 2, 1, 2, 1, 0),
        (Binary::SignedLess, 0x8000, 2, 1, 2, 1, 1),
        (Binary::Piece, 0x12, 1, 0x3456, 2, 3, 0x12_3456),
        (Binary::Subpiece, 0x1122_3344, 4, 1, 4, 2, 0x2233),
        (Binary::Subpiece, 0x1122_3344, 4, 3, 4, 2, 0x11),
        (Binary::Subpiece, 0x1122_3344, 4, 4, 4, 8, 0),
    ];
    for (op, a, a_bytes, b, b_bytes, out_bytes, value) in rows {
        let (a, b) = (word(&rt, a, a_bytes), word(&rt, b, b_bytes));
        let out = width(&rt, out_bytes);
        assert!(rt; op.is_sized(a.width, b.width, out));
        assert_eq!(rt;
            binary(op, a, b, out).value,
            value,
            "{op:?} of {a:?} and {b:?}"
        );
    }
}

// Signed divisions of single bytes.
#[test]
fn named_divisions(rt: HostRuntime) {
    let rows: [(Divide, u128, u128, Result<u128, DivZero>); 7] = [
        (Divide::SignedQuotient, 0xf9, 2, Ok(0xfd)),
        (Divide::SignedRemainder, 0xf9, 2, Ok(0xff)),
        (Divide::SignedQuotient, 7, 0xfe, Ok(0xfd)),
        (Divide::SignedRemainder, 7, 0xfe, Ok(1)),
        (Divide::SignedQuotient, 0x80, 0xff, Ok(0x80)),
        (Divide::SignedRemainder, 0x80, 0xff, Ok(0)),
        (Divide::SignedRemainder, 0x80, 0, Err(DivZero)),
    ];
    for (op, a, b, value) in rows {
        let (x, y) = (Word::new(a, Width::BYTE), Word::new(b, Width::BYTE));
        let answer = divide(op, x, y);
        assert_eq!(rt; answer.map(|q| q.value), value, "{op:?} of {a} and {b}");
    }
}

// The corner words of a width: 0, 1, the greatest, the least signed and the two of alternating bits.
fn corners(w: Width) -> [u128; 6] {
    let least = 1u128 << (8 * w.bytes as u32 - 1);
    let alternating = 0x5555_5555_5555_5555_5555_5555_5555_5555;
    [0, 1, u128::MAX, least, alternating, alternating << 1]
}

const BYTES: [u8; 7] = [1, 2, 3, 4, 8, 15, 16];

// The values of an operation, counted and taken together into one number: the widths of the inputs
// and of the output go through `BYTES` where the size rule allows them, and for each the inputs go
// through the corner words.
#[derive(Clone, Copy, Debug, PartialEq, Eq)]
struct Values {
    count: u32,
    sum: u64,
}

impl Values {
    const NONE: Values = Values { count: 0, sum: 0 };

    fn with(self, value: u128) -> Values {
        let spread = 6364136223846793005;
        let low = (value & 0xffff_ffff_ffff_ffff) as u64;
        let high = (value >> 64) as u64;
        let sum = self.sum.wrapping_mul(spread).wrapping_add(low);
        Values {
            count: self.count.wrapping_add(1),
            sum: sum.wrapping_mul(spread).wrapping_add(high),
        }
    }
}

fn unary_values(rt: &impl Abort, op: Unary) -> Values {
    let mut values = Values::NONE;
    for bytes in BYTES {
        for out_bytes in BYTES {
            let (w, out) = (width(rt, bytes), width(rt, out_bytes));
            if op.is_sized(w, out) {
                for a in corners(w) {
                    values = values.with(unary(op, Word::new(a, w), out).value);
                }
            }
        }
    }
    values
}

fn binary_values(rt: &impl Abort, op: Binary) -> Values {
    let mut values = Values::NONE;
    for a_bytes in BYTES {
        for b_bytes in BYTES {
            for out_bytes in BYTES {
                let (u, v, out) = (width(rt, a_bytes), width(rt, b_bytes), width(rt, out_bytes));
                if op.is_sized(u, v, out) {
                    for a in corners(u) {
                        for b in corners(v) {
                            let value = binary(op, Word::new(a, u), Word::new(b, v), out).value;
                            values = values.with(value);
                        }
                    }
                }
            }
        }
    }
    values
}

// The values of a division, and how often the divisor was 0.
fn divide_values(rt: &impl Abort, op: Divide) -> (Values, u32) {
    let mut values = Values::NONE;
    let mut zeros = 0u32;
    for bytes in BYTES {
        let w = width(rt, bytes);
        for a in corners(w) {
            for b in corners(w) {
                match divide(op, Word::new(a, w), Word::new(b, w)) {
                    Ok(q) => values = values.with(q.value),
                    Err(DivZero) => zeros = zeros.wrapping_add(1),
                }
            }
        }
    }
    (values, zeros)
}

const UNARY: [(Unary, u32, u64); 8] = [
    (Unary::Copy, 42, 0xc17a_5a65_3133_7a61),
    (Unary::Negate, 42, 0xfa5f_9c6b_2404_4ed7),
    (Unary::Complement, 42, 0x6e91_ae6c_1fca_abb9),
    (Unary::ZeroExtend, 126, 0x69a9_e4c0_6896_3bad),
    (Unary::SignExtend, 126, 0x419b_0c78_20ba_3b8f),
    (Unary::CountOnes, 294, 0x5a1c_ce8f_fd16_8e7a),
    (Unary::CountLeadingZeros, 294, 0xcc74_468c_0a44_1518),
    (Unary::BoolNegate, 6, 0x7402_aebd_e735_0afb),
];

const BINARY: [(Binary, u32, u64); 23] = [
    (Binary::Piece, 360, 0x470f_43e0_4ee9_2f6e),
    (Binary::Subpiece, 12348, 0x73ba_fcce_551a_0e11),
    (Binary::Add, 252, 0x140f_66ae_f980_c414),
    (Binary::Subtract, 252, 0xa029_df58_68f4_bb2c),
    (Binary::Multiply, 252, 0xcc03_6e93_db2f_8f8d),
    (Binary::And, 252, 0xd580_0202_0ebb_7ef3),
    (Binary::Or, 252, 0x73df_3bf3_18b2_3ae1),
    (Binary::Xor, 252, 0x9e5f_39f1_09f6_bbee),
    (Binary::Equal, 252, 0xffba_1f2d_59af_0b9a),
    (Binary::NotEqual, 252, 0x5b4e_3333_baf4_5f82),
    (Binary::Less, 252, 0x6a37_f9b4_32d7_8a7d),
    (Binary::LessEqual, 252, 0x69f2_18e1_8c86_9617),
    (Binary::SignedLess, 252, 0xdfb5_1451_f98c_6095),
    (Binary::SignedLessEqual, 252, 0xdf6f_337f_533b_6c2f),
    (Binary::Carry, 252, 0x138a_35a3_414d_77ef),
    (Binary::SignedCarry, 252, 0x2d23_67c7_5164_56cd),
    (Binary::SignedBorrow, 252, 0xc60d_bb63_285c_86cd),
    (Binary::Left, 1764, 0x8d83_94e3_c79d_45e9),
    (Binary::Right, 1764, 0x9d58_555b_8c44_2805),
    (Binary::SignedRight, 1764, 0x1aa8_9aa9_80dd_d00f),
    (Binary::BoolAnd, 36, 0xd987_ef43_d663_29cd),
    (Binary::BoolOr, 36, 0x64a1_063d_df07_322f),
    (Binary::BoolXor, 36, 0x8b19_16fa_08a4_0862),
];

// With the number of divisors that are 0 before the sum.
const DIVIDE: [(Divide, u32, u32, u64); 4] = [
    (Divide::Quotient, 210, 42, 0x8895_9082_0ac3_f658),
    (Divide::SignedQuotient, 210, 42, 0xa465_faaf_1b62_2612),
    (Divide::Remainder, 210, 42, 0x9fc4_a2b8_fb07_422c),
    (Divide::SignedRemainder, 210, 42, 0x84ec_75b7_f67e_1a76),
];

#[test]
fn corner_values(rt: HostRuntime) {
    for (op, count, sum) in UNARY {
        assert_eq!(rt; unary_values(&rt, op), Values { count, sum }, "{op:?}");
    }
    for (op, count, sum) in BINARY {
        assert_eq!(rt; binary_values(&rt, op), Values { count, sum }, "{op:?}");
    }
    for (op, count, zeros, sum) in DIVIDE {
        let (values, divided_by_zero) = divide_values(&rt, op);
        assert_eq!(rt; values, Values { count, sum }, "{op:?}");
        assert_eq!(rt; divided_by_zero, zeros, "{op:?}");
    }
}
