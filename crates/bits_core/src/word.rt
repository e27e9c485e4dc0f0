ghost use Rattle.std.specs.Prelude.{◌≡◌, ◌≢◌, ℕ, ◌+◌, ◌-◌, ◌*◌, ◌/◌, ◌%◌, ◌^◌, ◌<◌, ◌≤◌, ◌↔◌, IfSome, IsSome, IsTrue, bit_and, bit_or, bit_xor, unsigned_abs};
ghost use Rattle.bits_core.specs.Value as V;

/// The width of a word: a number of bytes from 1 to 16.
#[derive(Clone, Copy, Debug, PartialEq, Eq)]
pub struct Width {
    /// From 1 to 16.
    pub bytes: u8,
    pub ghost from: { 0 < bytes },
    pub ghost to: { bytes ≤ 16 },
}

impl Width {
    /// One byte, the width of what a test gives.
    pub const BYTE: Width = Width { bytes: 1 };

    /// The width of `n` bytes. None exactly where `n` is 0 or more than 16.
    pub fn new(n: u8) -> Option<Width>
        ensures some { IsSome result ↔ ((1 ≤ n) × (n ≤ 16)) }
        ensures value { IfSome result (λ w. w.bytes ≡ n) }
    {
        if n == 0 || n > 16 {
            None
        } else {
            Some(Width { bytes: n })
        }
    }

    fn bits(self) -> u32
        ensures { result ≡ 8 * self.bytes }
    {
        8 * self.bytes as u32
    }

    // The greatest word.
    fn mask(self) -> u128
        ensures { result ≡ V.limit self.bytes - 1 }
    {
        u128::MAX >> (128 - self.bits())
    }
}

/// A number below 256 to the power of its width.
#[derive(Clone, Copy, Debug, PartialEq, Eq)]
pub struct Word {
    /// Below 256 to the power of `width`.
    pub value: u128,
    pub width: Width,
    pub ghost below: { value < V.limit width.bytes },
}

impl Word {
    /// The word of a number, reduced modulo 256 to the power of the width.
    pub fn new(value: u128, width: Width) -> Word
        ensures value { result.value ≡ value % V.limit width.bytes }
        ensures width { result.width ≡ width }
    {
        Word {
            value: value & width.mask(),
            width,
        }
    }

    /// The word of one byte that a test gives: 1 for true and 0 for false.
    #[tactic(auto, using(crate::proofs::Limits::limit_least))]
    pub fn of_test(test: bool) -> Word
        ensures value { result.value ≡ V.flag test }
        ensures width { result.width.bytes ≡ 1 }
    {
        Word {
            value: if test { 1 } else { 0 },
            width: Width::BYTE,
        }
    }

    /// The signed number that the word means in two's complement.
    pub fn signed(self) -> i128
        ensures { result ≡ V.signed self.width.bytes self.value }
    {
        if self.is_negative() {
            (self.value + !self.width.mask()).cast_signed()
        } else {
            self.value.cast_signed()
        }
    }

    // The word that means the signed number, which wraps.
    fn of_signed(value: i128, width: Width) -> Word
        ensures value { result.value ≡ V.word width.bytes value }
        ensures width { result.width ≡ width }
    {
        Word::new(value.cast_unsigned(), width)
    }

    // Whether the sign bit is set.
    fn is_negative(self) -> bool
        ensures { IsTrue result ↔ (V.half self.width.bytes ≤ self.value) }
    {
        self.value > self.width.mask() >> 1
    }

    // The absolute value of the signed number that the word means.
    #[tactic(auto, using(crate::proofs::Limits::halves, crate::proofs::Machine::limit_most, crate::proofs::Signed::signed_cases))]
    fn size(self) -> u128
        ensures { result ≡ unsigned_abs (V.signed self.width.bytes self.value) }
    {
        if self.is_negative() {
            self.width.mask() - self.value + 1
        } else {
            self.value
        }
    }

    // ---- arithmetic

    #[tactic(auto, using(crate::proofs::Operations::neg_by))]
    pub(crate) fn negate(self) -> Word
        ensures value { result.value ≡ V.neg self.width.bytes self.value }
        ensures width { result.width ≡ self.width }
    {
        Word::new(0u128.wrapping_sub(self.value), self.width)
    }

    #[tactic(auto, using(crate::proofs::Operations::add_by))]
    pub(crate) fn add(self, b: Word) -> Word
        ensures value { result.value ≡ V.add self.width.bytes self.value b.value }
        ensures width { result.width ≡ self.width }
    {
        Word::new(self.value.wrapping_add(b.value), self.width)
    }

    #[tactic(auto, using(crate::proofs::Operations::sub_by))]
    pub(crate) fn subtract(self, b: Word) -> Word
        requires { self.width.bytes ≡ b.width.bytes }
        ensures value { result.value ≡ V.sub self.width.bytes self.value b.value }
        ensures width { result.width ≡ self.width }
    {
        Word::new(self.value.wrapping_sub(b.value), self.width)
    }

    #[tactic(auto, using(crate::proofs::Operations::mul_by))]
    pub(crate) fn multiply(self, b: Word) -> Word
        ensures value { result.value ≡ V.mul self.width.bytes self.value b.value }
        ensures width { result.width ≡ self.width }
    {
        Word::new(self.value.wrapping_mul(b.value), self.width)
    }

    #[tactic(auto, using(crate::proofs::Operations::smaller))]
    pub(crate) fn quotient(self, b: Word) -> Word
        requires { b.value ≢ 0 }
        ensures value { result.value ≡ V.div self.value b.value }
        ensures width { result.width ≡ self.width }
    {
        Word {
            value: quotient_of(self.value, b.value),
            width: self.width,
        }
    }

    #[tactic(auto, using(crate::proofs::Operations::smaller))]
    pub(crate) fn remainder(self, b: Word) -> Word
        requires { b.value ≢ 0 }
        ensures value { result.value ≡ V.rem self.value b.value }
        ensures width { result.width ≡ self.width }
    {
        Word {
            value: remainder_of(self.value, b.value),
            width: self.width,
        }
    }

    pub(crate) fn signed_quotient(self, b: Word) -> Word
        requires some { b.value ≢ 0 }
        requires same { self.width.bytes ≡ b.width.bytes }
        ensures value { result.value ≡ V.sdiv self.width.bytes self.value b.value }
        ensures width { result.width ≡ self.width }
    {
        let size = Word::new(quotient_of(self.size(), b.size()), self.width);
        if self.is_negative() == b.is_negative() {
            size
        } else {
            size.negate()
        }
    }

    #[tactic(auto, using(crate::proofs::Division::signed_remainders))]
    pub(crate) fn signed_remainder(self, b: Word) -> Word
        requires some { b.value ≢ 0 }
        requires same { self.width.bytes ≡ b.width.bytes }
        ensures value { result.value ≡ V.srem self.width.bytes self.value b.value }
        ensures width { result.width ≡ self.width }
    {
        let size = Word::new(remainder_of(self.size(), b.size()), self.width);
        if self.is_negative() {
            size.negate()
        } else {
            size
        }
    }

    // ---- bits

    #[tactic(auto, using(crate::proofs::Operations::complement_by))]
    pub(crate) fn complement(self) -> Word
        ensures value { result.value ≡ V.complement self.width.bytes self.value }
        ensures width { result.width ≡ self.width }
    {
        Word::new(!self.value, self.width)
    }

    #[tactic(auto, using(crate::proofs::Operations::kept))]
    pub(crate) fn and(self, b: Word) -> Word
        ensures value { result.value ≡ bit_and self.value b.value }
        ensures width { result.width ≡ self.width }
    {
        Word {
            value: self.value & b.value,
            width: self.width,
        }
    }

    #[tactic(auto, using(crate::proofs::Operations::kept))]
    pub(crate) fn or(self, b: Word) -> Word
        requires { self.width.bytes ≡ b.width.bytes }
        ensures value { result.value ≡ bit_or self.value b.value }
        ensures width { result.width ≡ self.width }
    {
        Word {
            value: self.value | b.value,
            width: self.width,
        }
    }

    #[tactic(auto, using(crate::proofs::Operations::kept))]
    pub(crate) fn xor(self, b: Word) -> Word
        requires { self.width.bytes ≡ b.width.bytes }
        ensures value { result.value ≡ bit_xor self.value b.value }
        ensures width { result.width ≡ self.width }
    {
        Word {
            value: self.value ^ b.value,
            width: self.width,
        }
    }

    #[tactic(auto, using(crate::proofs::Operations::xor_word, crate::proofs::Limits::limit_least))]
    pub(crate) fn flip_lowest(self) -> Word
        ensures value { result.value ≡ bit_xor self.value 1 }
        ensures width { result.width ≡ self.width }
    {
        Word {
            value: self.value ^ 1,
            width: self.width,
        }
    }

    #[tactic(auto, using(crate::proofs::Operations::lefts))]
    pub(crate) fn left(self, by: u128) -> Word
        ensures value { result.value ≡ V.left self.width.bytes self.value by }
        ensures width { result.width ≡ self.width }
    {
        if by < 128 {
            Word::new(self.value << by as u32, self.width)
        } else {
            Word::new(0, self.width)
        }
    }

    #[tactic(auto, using(crate::proofs::Operations::rights))]
    pub(crate) fn right(self, by: u128) -> Word
        ensures value { result.value ≡ V.right self.value by }
        ensures width { result.width ≡ self.width }
    {
        if by < 128 {
            Word::new(self.value >> by as u32, self.width)
        } else {
            Word::new(0, self.width)
        }
    }

    pub(crate) fn signed_right(self, by: u128) -> Word
        ensures value { result.value ≡ V.sright self.width.bytes self.value by }
        ensures width { result.width ≡ self.width }
    {
        Word::of_signed(self.signed() >> (by.min(127) as u32), self.width)
    }

    #[tactic(auto, using(crate::proofs::Operations::popcount_by))]
    pub(crate) fn ones(self, out: Width) -> Word
        ensures value { result.value ≡ V.popcount out.bytes self.value }
        ensures width { result.width ≡ out }
    {
        Word::new(self.value.count_ones() as u128, out)
    }

    #[tactic(auto, using(crate::proofs::Operations::lzcount_by, crate::proofs::Operations::leading_fits))]
    pub(crate) fn leading_zeros(self, out: Width) -> Word
        ensures value { result.value ≡ V.lzcount self.width.bytes out.bytes self.value }
        ensures width { result.width ≡ out }
    {
        let beyond = 128 - self.width.bits();
        Word::new((self.value.leading_zeros() - beyond) as u128, out)
    }

    // ---- tests

    #[tactic(auto, using(crate::proofs::Operations::slt_by))]
    pub(crate) fn is_signed_less(self, b: Word) -> bool
        requires { self.width.bytes ≡ b.width.bytes }
        ensures { V.flag result ≡ V.slt self.width.bytes self.value b.value }
    {
        self.signed() < b.signed()
    }

    #[tactic(auto, using(crate::proofs::Operations::sle_by))]
    pub(crate) fn is_signed_at_most(self, b: Word) -> bool
        requires { self.width.bytes ≡ b.width.bytes }
        ensures { V.flag result ≡ V.sle self.width.bytes self.value b.value }
    {
        self.signed() <= b.signed()
    }

    #[tactic(auto, using(crate::proofs::Operations::carry_by))]
    pub(crate) fn carries(self, b: Word) -> bool
        requires { self.width.bytes ≡ b.width.bytes }
        ensures { V.flag result ≡ V.carry self.width.bytes self.value b.value }
    {
        self.add(b).value < self.value
    }

    #[tactic(auto, using(crate::proofs::Operations::scarry_by))]
    pub(crate) fn signed_carries(self, b: Word) -> bool
        requires { self.width.bytes ≡ b.width.bytes }
        ensures { V.flag result ≡ V.scarry self.width.bytes self.value b.value }
    {
        let sum = self.add(b);
        let (a_below, b_below, below) = (self.is_negative(), b.is_negative(), sum.is_negative());
        (a_below == b_below) & (below != a_below)
    }

    #[tactic(auto, using(crate::proofs::Operations::sborrow_by))]
    pub(crate) fn signed_borrows(self, b: Word) -> bool
        requires { self.width.bytes ≡ b.width.bytes }
        ensures { V.flag result ≡ V.sborrow self.width.bytes self.value b.value }
    {
        let difference = self.subtract(b);
        let (a_below, b_below, below) = (
            self.is_negative(),
            b.is_negative(),
            difference.is_negative(),
        );
        (a_below != b_below) & (below != a_below)
    }

    // ---- wider and narrower words

    #[tactic(auto, using(crate::proofs::Operations::zext_by))]
    pub(crate) fn zero_extend(self, out: Width) -> Word
        requires { self.width.bytes ≤ out.bytes }
        ensures value { result.value ≡ V.zext self.value }
        ensures width { result.width ≡ out }
    {
        Word::new(self.value, out)
    }

    #[tactic(auto, using(crate::proofs::Operations::sext_by))]
    pub(crate) fn sign_extend(self, out: Width) -> Word
        ensures value { result.value ≡ V.sext self.width.bytes out.bytes self.value }
        ensures width { result.width ≡ out }
    {
        Word::of_signed(self.signed(), out)
    }

    // The word of high part `self` and low part `low`.
    #[tactic(auto, using(crate::proofs::Operations::concat_by))]
    pub(crate) fn join(self, low: Word, out: Width) -> Word
        requires { out.bytes ≡ self.width.bytes + low.width.bytes }
        ensures value { result.value ≡ V.concat low.width.bytes self.value low.value }
        ensures width { result.width ≡ out }
    {
        Word::new(self.value << low.width.bits() | low.value, out)
    }

    // What is left after `dropped` low bytes.
    #[tactic(auto, using(crate::proofs::Operations::parts))]
    pub(crate) fn part(self, dropped: u128, out: Width) -> Word
        ensures value { result.value ≡ V.part self.value dropped out.bytes }
        ensures width { result.width ≡ out }
    {
        if dropped < 16 {
            Word::new(self.value >> (8 * dropped as u32), out)
        } else {
            Word::new(0, out)
        }
    }
}

// The machine divides numbers of 64 bits by one instruction, and those of 128 bits by a routine.
fn quotient_of(a: u128, b: u128) -> u128
    requires { b ≢ 0 }
    ensures { result ≡ a / b }
{
    match (u64::try_from(a), u64::try_from(b)) {
        (Ok(x), Ok(y)) => (x / y) as u128,
        _ => a / b,
    }
}

// Likewise.
fn remainder_of(a: u128, b: u128) -> u128
    requires { b ≢ 0 }
    ensures { result ≡ a % b }
{
    match (u64::try_from(a), u64::try_from(b)) {
        (Ok(x), Ok(y)) => (x % y) as u128,
        _ => a % b,
    }
}
