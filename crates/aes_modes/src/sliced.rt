//! AES-128 of two blocks in eight words of 32 bits, for processors without byte shuffles.
//!
//! Word j has bit j of each of the 32 octets of both states: that of the octet in row r and column c of block b is its bit 8 r + 2 c + b. So the rows are
//! the octets of a word, and an operation on words is one on all octets at once. SubBytes is a circuit of 113 gates on whole words (J. Boyar, R. Peralta:
//! A small depth-16 circuit for the AES S-box, 2012). Nothing is looked up, and no address and no branch depends on a key or a block.
ghost use Rattle.std.specs.Prelude.{◌-◌, ◌≤◌, ◌≡◌, ℕ, ◌+◌, ◌*◌, ◌%◌, ◌/◌, ◌<◌, List, [], ◌∷◌, ◌++◌, slice_index, bit_xor};
ghost use Rattle.std.specs.Int.{bit_at, w32, to_le_bytes};
ghost use Rattle.aes_modes.specs.Field.{s_box};
ghost use Rattle.aes_modes.specs.Cipher.{round, last_round, next_round_key, encrypted};
ghost use Rattle.aes_modes.specs.Sliced.{IsSlicedSchedule, IsRoundConstant, circuit, crossed_first, crossed_second, octet_at, state, shifted_from, mixed_octet};

use crate::compare::is_same;
use plc_base::Key;
use std::marker::Model;

/// The S-box (FIPS 197, section 5.1.1) of 32 octets, by a circuit. `u7` has their lowest bits, `u0` their highest; the answer has the lowest first.
#[inline(always)]
fn circuit(u7: u32, u6: u32, u5: u32, u4: u32, u3: u32, u2: u32, u1: u32, u0: u32) -> [u32; 8]
    ensures circuit { result ≡ circuit 4294967295 u7 u6 u5 u4 u3 u2 u1 u0 }
    ensures octets { (p : ℕ) → p < 32 → octet_at result p ≡ s_box (octet_at (u7 ∷ u6 ∷ u5 ∷ u4 ∷ u3 ∷ u2 ∷ u1 ∷ u0 ∷ []) p) }
{
    let y14 = u3 ^ u5;
    let y13 = u0 ^ u6;
    let y12 = y13 ^ y14;
    let t1 = u4 ^ y12;
    let y15 = t1 ^ u5;
    let t2 = y12 & y15;
    let y6 = y15 ^ u7;
    let y20 = t1 ^ u1;
    let y9 = u0 ^ u3;
    let y11 = y20 ^ y9;
    let t12 = y9 & y11;
    let y7 = u7 ^ y11;
    let y8 = u0 ^ u5;
    let t0 = u1 ^ u2;
    let y10 = y15 ^ t0;
    let y17 = y10 ^ y11;
    let t13 = y14 & y17;
    let t14 = t13 ^ t12;
    let y19 = y10 ^ y8;
    let t15 = y8 & y10;
    let t16 = t15 ^ t12;
    let y16 = t0 ^ y11;
    let y21 = y13 ^ y16;
    let t7 = y13 & y16;
    let y18 = u0 ^ y16;
    let y1 = t0 ^ u7;
    let y4 = y1 ^ u3;
    let t5 = y4 & u7;
    let t6 = t5 ^ t2;
    let t18 = t6 ^ t16;
    let t22 = t18 ^ y19;
    let y2 = y1 ^ u0;
    let t10 = y2 & y7;
    let t11 = t10 ^ t7;
    let t20 = t11 ^ t16;
    let t24 = t20 ^ y18;
    let y5 = y1 ^ u6;
    let t8 = y5 & y1;
    let t9 = t8 ^ t7;
    let t19 = t9 ^ t14;
    let t23 = t19 ^ y21;
    let y3 = y5 ^ y8;
    let t3 = y3 & y6;
    let t4 = t3 ^ t2;
    let t17 = t4 ^ y20;
    let t21 = t17 ^ t14;
    let t26 = t21 & t23;
    let t27 = t24 ^ t26;
    let t31 = t22 ^ t26;
    let t25 = t21 ^ t22;
    let t28 = t25 & t27;
    let t29 = t28 ^ t22;
    let z14 = t29 & y2;
    let z5 = t29 & y7;
    let t30 = t23 ^ t24;
    let t32 = t31 & t30;
    let t33 = t32 ^ t24;
    let t35 = t27 ^ t33;
    let t36 = t24 & t35;
    let t38 = t27 ^ t36;
    let t39 = t29 & t38;
    let t40 = t25 ^ t39;
    let t43 = t29 ^ t40;
    let z3 = t43 & y16;
    let tc12 = z3 ^ z5;
    let z12 = t43 & y13;
    let z13 = t40 & y5;
    let z4 = t40 & y1;
    let tc6 = z3 ^ z4;
    let t34 = t23 ^ t33;
    let t37 = t36 ^ t34;
    let t41 = t40 ^ t37;
    let z8 = t41 & y10;
    let z17 = t41 & y8;
    let t44 = t33 ^ t37;
    let z0 = t44 & y15;
    let z9 = t44 & y12;
    let z10 = t37 & y3;
    let z1 = t37 & y6;
    let tc5 = z1 ^ z0;
    let tc11 = tc6 ^ tc5;
    let z11 = t33 & y4;
    let t42 = t29 ^ t33;
    let t45 = t42 ^ t41;
    let z7 = t45 & y17;
    let tc8 = z7 ^ tc6;
    let z16 = t45 & y14;
    let z6 = t42 & y11;
    let tc16 = z6 ^ tc8;
    let z15 = t42 & y9;
    let tc20 = z15 ^ tc16;
    let tc1 = z15 ^ z16;
    let tc2 = z10 ^ tc1;
    let tc21 = tc2 ^ z11;
    let tc3 = z9 ^ tc2;
    let s0 = tc3 ^ tc16;
    let s3 = tc3 ^ tc11;
    let s1 = s3 ^ tc16;
    let tc13 = z13 ^ tc1;
    let z2 = t33 & u7;
    let tc4 = z0 ^ z2;
    let tc7 = z12 ^ tc4;
    let tc9 = z8 ^ tc7;
    let tc10 = tc8 ^ tc9;
    let tc17 = z14 ^ tc10;
    let s5 = tc21 ^ tc17;
    let tc26 = tc17 ^ tc20;
    let s2 = tc26 ^ z17;
    let tc14 = tc4 ^ tc12;
    let tc18 = tc13 ^ tc14;
    let s6 = tc10 ^ tc18;
    let s7 = z12 ^ tc18;
    let s4 = tc14 ^ s3;
    [
        s7 ^ 0xffff_ffff,
        s6 ^ 0xffff_ffff,
        s5,
        s4,
        s3,
        s2 ^ 0xffff_ffff,
        s1 ^ 0xffff_ffff,
        s0,
    ]
}

/// SubBytes (section 5.1.1) of both blocks.
#[inline(always)]
fn sub_bytes(q: [u32; 8]) -> [u32; 8]
    ensures { (p : ℕ) → p < 32 → octet_at result p ≡ s_box (octet_at q p) }
{
    circuit(q[0], q[1], q[2], q[3], q[4], q[5], q[6], q[7])
}

/// The bits of each octet of `x`, as ShiftRows (section 5.1.2) moves them.
#[inline(always)]
fn shift_word(x: u32) -> u32
    ensures { (p : ℕ) → p < 32 → bit_at result p ≡ bit_at x (shifted_from p) }
{
    let t = (x ^ (x >> 2)) & 0x3300_3300;
    let y = x ^ t ^ (t << 2);
    let u = (y ^ (y >> 4)) & 0x030f_0c00;
    y ^ u ^ (u << 4)
}

/// ShiftRows (section 5.1.2) of both blocks.
#[inline(always)]
fn shift_rows(q: [u32; 8]) -> [u32; 8]
    ensures { (p : ℕ) → p < 32 → octet_at result p ≡ octet_at q (shifted_from p) }
{
    let [q0, q1, q2, q3, q4, q5, q6, q7] = q;
    [
        shift_word(q0),
        shift_word(q1),
        shift_word(q2),
        shift_word(q3),
        shift_word(q4),
        shift_word(q5),
        shift_word(q6),
        shift_word(q7),
    ]
}

/// The bits of `x`, each row with what the row after it had.
#[inline(always)]
fn row_after(x: u32) -> u32
    ensures { (p : ℕ) → p < 32 → bit_at result p ≡ bit_at x ((p + 8) % 32) }
{
    x.rotate_right(8)
}

/// The bits of `x`, each row with what the second row after it had.
#[inline(always)]
fn two_rows_after(x: u32) -> u32
    ensures { (p : ℕ) → p < 32 → bit_at result p ≡ bit_at x ((p + 16) % 32) }
{
    x.rotate_right(16)
}

/// MixColumns (section 5.1.3) of both blocks.
#[inline(always)]
fn mix_columns(q: [u32; 8]) -> [u32; 8]
    ensures { (p : ℕ) → p < 32 → octet_at result p
        ≡ mixed_octet (octet_at q p) (octet_at q ((p + 8) % 32)) (octet_at q ((p + 16) % 32)) (octet_at q ((p + 24) % 32)) }
{
    let [q0, q1, q2, q3, q4, q5, q6, q7] = q;
    let r0 = row_after(q0);
    let r1 = row_after(q1);
    let r2 = row_after(q2);
    let r3 = row_after(q3);
    let r4 = row_after(q4);
    let r5 = row_after(q5);
    let r6 = row_after(q6);
    let r7 = row_after(q7);
    let t0 = q0 ^ r0;
    let t1 = q1 ^ r1;
    let t2 = q2 ^ r2;
    let t3 = q3 ^ r3;
    let t4 = q4 ^ r4;
    let t5 = q5 ^ r5;
    let t6 = q6 ^ r6;
    let t7 = q7 ^ r7;
    [
        t7 ^ r0 ^ two_rows_after(t0),
        t0 ^ t7 ^ r1 ^ two_rows_after(t1),
        t1 ^ r2 ^ two_rows_after(t2),
        t2 ^ t7 ^ r3 ^ two_rows_after(t3),
        t3 ^ t7 ^ r4 ^ two_rows_after(t4),
        t4 ^ r5 ^ two_rows_after(t5),
        t5 ^ r6 ^ two_rows_after(t6),
        t6 ^ r7 ^ two_rows_after(t7),
    ]
}

/// AddRoundKey (section 5.1.4) of both blocks: each word with that of the key added.
#[inline(always)]
fn xor_words(q: [u32; 8], k: &[u32; 8]) -> [u32; 8]
    ensures { (p : ℕ) → p < 32 → octet_at result p ≡ bit_xor (octet_at q p) (octet_at k.now p) }
{
    let [q0, q1, q2, q3, q4, q5, q6, q7] = q;
    let [k0, k1, k2, k3, k4, k5, k6, k7] = *k;
    [
        q0 ^ k0,
        q1 ^ k1,
        q2 ^ k2,
        q3 ^ k3,
        q4 ^ k4,
        q5 ^ k5,
        q6 ^ k6,
        q7 ^ k7,
    ]
}

/// A round (section 5.1) of both blocks, with the round key of each.
#[inline(always)]
fn sliced_round(q: [u32; 8], k: &[u32; 8]) -> [u32; 8]
    ensures { (b : ℕ) → b < 2 → state b result ≡ round (state b k.now) (state b q) }
{
    xor_words(mix_columns(shift_rows(sub_bytes(q))), k)
}

/// The last round (section 5.1) of both blocks, with the round key of each.
#[inline(always)]
fn sliced_last_round(q: [u32; 8], k: &[u32; 8]) -> [u32; 8]
    ensures { (b : ℕ) → b < 2 → state b result ≡ last_round (state b k.now) (state b q) }
{
    xor_words(shift_rows(sub_bytes(q)), k)
}

/// The bits of `a` at places whose bit 1 is set, and those of `b` at the others, change places.
#[inline(always)]
fn cross_1(a: u32, b: u32) -> (u32, u32)
    ensures first { (p : ℕ) → p < 32 → bit_at result.0 p ≡ crossed_first 1 a b p }
    ensures second { (p : ℕ) → p < 32 → bit_at result.1 p ≡ crossed_second 1 a b p }
{
    let t = ((a >> 1) ^ b) & 0x5555_5555;
    (a ^ (t << 1), b ^ t)
}

/// The bits of `a` at places whose bit 2 is set, and those of `b` at the others, change places.
#[inline(always)]
fn cross_2(a: u32, b: u32) -> (u32, u32)
    ensures first { (p : ℕ) → p < 32 → bit_at result.0 p ≡ crossed_first 2 a b p }
    ensures second { (p : ℕ) → p < 32 → bit_at result.1 p ≡ crossed_second 2 a b p }
{
    let t = ((a >> 2) ^ b) & 0x3333_3333;
    (a ^ (t << 2), b ^ t)
}

/// The bits of `a` at places whose bit 4 is set, and those of `b` at the others, change places.
#[inline(always)]
fn cross_4(a: u32, b: u32) -> (u32, u32)
    ensures first { (p : ℕ) → p < 32 → bit_at result.0 p ≡ crossed_first 4 a b p }
    ensures second { (p : ℕ) → p < 32 → bit_at result.1 p ≡ crossed_second 4 a b p }
{
    let t = ((a >> 4) ^ b) & 0x0f0f_0f0f;
    (a ^ (t << 4), b ^ t)
}

/// Each square of eight bits in eight words is transposed: bit p of word s comes from bit 8 (p / 8) + s of word p % 8.
///
/// Between the octets of two blocks and their sliced form this is the way there and the way back.
#[inline(always)]
fn transpose(q: [u32; 8]) -> [u32; 8]
    ensures w0 { (p : ℕ) → p < 32 → bit_at (slice_index result 0) p ≡ bit_at (slice_index q (p % 8)) (8 * (p / 8) + 0) }
    ensures w1 { (p : ℕ) → p < 32 → bit_at (slice_index result 1) p ≡ bit_at (slice_index q (p % 8)) (8 * (p / 8) + 1) }
    ensures w2 { (p : ℕ) → p < 32 → bit_at (slice_index result 2) p ≡ bit_at (slice_index q (p % 8)) (8 * (p / 8) + 2) }
    ensures w3 { (p : ℕ) → p < 32 → bit_at (slice_index result 3) p ≡ bit_at (slice_index q (p % 8)) (8 * (p / 8) + 3) }
    ensures w4 { (p : ℕ) → p < 32 → bit_at (slice_index result 4) p ≡ bit_at (slice_index q (p % 8)) (8 * (p / 8) + 4) }
    ensures w5 { (p : ℕ) → p < 32 → bit_at (slice_index result 5) p ≡ bit_at (slice_index q (p % 8)) (8 * (p / 8) + 5) }
    ensures w6 { (p : ℕ) → p < 32 → bit_at (slice_index result 6) p ≡ bit_at (slice_index q (p % 8)) (8 * (p / 8) + 6) }
    ensures w7 { (p : ℕ) → p < 32 → bit_at (slice_index result 7) p ≡ bit_at (slice_index q (p % 8)) (8 * (p / 8) + 7) }
{
    let (a, b) = cross_1(q[0], q[1]);
    let (c, d) = cross_1(q[2], q[3]);
    let (e, f) = cross_1(q[4], q[5]);
    let (g, h) = cross_1(q[6], q[7]);
    let (i, k) = cross_2(a, c);
    let (j, l) = cross_2(b, d);
    let (m, o) = cross_2(e, g);
    let (n, p) = cross_2(f, h);
    let (r, v) = cross_4(i, m);
    let (s, w) = cross_4(j, n);
    let (t, x) = cross_4(k, o);
    let (u, y) = cross_4(l, p);
    [r, s, t, u, v, w, x, y]
}

/// The word of four octets, the lowest first: a column of a state.
#[inline(always)]
fn word(a: u8, b: u8, c: u8, d: u8) -> u32
    ensures { to_le_bytes w32 result ≡ a ∷ b ∷ c ∷ d ∷ [] }
{
    u32::from_le_bytes([a, b, c, d])
}

/// The sliced form of two blocks. Their columns alternate in the words that are transposed.
fn pack(x: &[u8; 16], y: &[u8; 16]) -> [u32; 8]
    ensures first { state 0 result ≡ x.now }
    ensures second { state 1 result ≡ y.now }
{
    transpose([
        word(x[0], x[1], x[2], x[3]),
        word(y[0], y[1], y[2], y[3]),
        word(x[4], x[5], x[6], x[7]),
        word(y[4], y[5], y[6], y[7]),
        word(x[8], x[9], x[10], x[11]),
        word(y[8], y[9], y[10], y[11]),
        word(x[12], x[13], x[14], x[15]),
        word(y[12], y[13], y[14], y[15]),
    ])
}

/// The octets of four words, the lowest of each first.
#[inline(always)]
fn octets(a: u32, b: u32, c: u32, d: u32) -> [u8; 16]
    ensures { result ≡ to_le_bytes w32 a ++ to_le_bytes w32 b ++ to_le_bytes w32 c ++ to_le_bytes w32 d }
{
    let [a0, a1, a2, a3] = a.to_le_bytes();
    let [b0, b1, b2, b3] = b.to_le_bytes();
    let [c0, c1, c2, c3] = c.to_le_bytes();
    let [d0, d1, d2, d3] = d.to_le_bytes();
    [
        a0, a1, a2, a3, b0, b1, b2, b3, c0, c1, c2, c3, d0, d1, d2, d3,
    ]
}

/// The two blocks of a sliced form.
fn unpack(q: [u32; 8]) -> ([u8; 16], [u8; 16])
    ensures first { result.0 ≡ state 0 q }
    ensures second { result.1 ≡ state 1 q }
{
    let t = transpose(q);
    (
        octets(t[0], t[2], t[4], t[6]),
        octets(t[1], t[3], t[5], t[7]),
    )
}

/// RotWord (section 5.2) of the last column, in the place of the first, and zeros in the other columns.
#[inline(always)]
fn last_column_word(x: u32) -> u32
    ensures inside { (p : ℕ) → p < 32 → p % 8 < 2 → bit_at result p ≡ bit_at x ((p + 14) % 32) }
    ensures outside { (p : ℕ) → p < 32 → 2 ≤ p % 8 → bit_at result p ≡ 0 }
{
    x.rotate_right(14) & 0x0303_0303
}

/// [`last_column_word`] of eight words.
#[inline(always)]
fn last_column(q: [u32; 8]) -> [u32; 8]
    ensures inside { (p : ℕ) → p < 32 → p % 8 < 2 → octet_at result p ≡ octet_at q ((p + 14) % 32) }
    ensures outside { (p : ℕ) → p < 32 → 2 ≤ p % 8 → octet_at result p ≡ 0 }
{
    [
        last_column_word(q[0]),
        last_column_word(q[1]),
        last_column_word(q[2]),
        last_column_word(q[3]),
        last_column_word(q[4]),
        last_column_word(q[5]),
        last_column_word(q[6]),
        last_column_word(q[7]),
    ]
}

/// Each column with what the one before it had, and the first with zeros.
#[inline(always)]
fn column_before_word(x: u32) -> u32
    ensures inside { (p : ℕ) → p < 32 → 2 ≤ p % 8 → bit_at result p ≡ bit_at x (p - 2) }
    ensures outside { (p : ℕ) → p < 32 → p % 8 < 2 → bit_at result p ≡ 0 }
{
    (x << 2) & 0xfcfc_fcfc
}

/// [`column_before_word`] of eight words.
#[inline(always)]
fn column_before(q: [u32; 8]) -> [u32; 8]
    ensures inside { (p : ℕ) → p < 32 → 2 ≤ p % 8 → octet_at result p ≡ octet_at q (p - 2) }
    ensures outside { (p : ℕ) → p < 32 → p % 8 < 2 → octet_at result p ≡ 0 }
{
    [
        column_before_word(q[0]),
        column_before_word(q[1]),
        column_before_word(q[2]),
        column_before_word(q[3]),
        column_before_word(q[4]),
        column_before_word(q[5]),
        column_before_word(q[6]),
        column_before_word(q[7]),
    ]
}

/// Each column with what the second one before it had, and the first two with zeros.
#[inline(always)]
fn two_columns_before_word(x: u32) -> u32
    ensures inside { (p : ℕ) → p < 32 → 4 ≤ p % 8 → bit_at result p ≡ bit_at x (p - 4) }
    ensures outside { (p : ℕ) → p < 32 → p % 8 < 4 → bit_at result p ≡ 0 }
{
    (x << 4) & 0xf0f0_f0f0
}

/// [`two_columns_before_word`] of eight words.
#[inline(always)]
fn two_columns_before(q: [u32; 8]) -> [u32; 8]
    ensures inside { (p : ℕ) → p < 32 → 4 ≤ p % 8 → octet_at result p ≡ octet_at q (p - 4) }
    ensures outside { (p : ℕ) → p < 32 → p % 8 < 4 → octet_at result p ≡ 0 }
{
    [
        two_columns_before_word(q[0]),
        two_columns_before_word(q[1]),
        two_columns_before_word(q[2]),
        two_columns_before_word(q[3]),
        two_columns_before_word(q[4]),
        two_columns_before_word(q[5]),
        two_columns_before_word(q[6]),
        two_columns_before_word(q[7]),
    ]
}

/// The round key after `k` (section 5.2), for both blocks. `constant` is that of its round, in the first octet of each block.
///
/// Each column of it is the sum of those up to it: the column before each is added, and then the second before each.
fn sliced_next_round_key(k: [u32; 8], constant: [u32; 8]) -> [u32; 8]
    ensures { (c : ℕ) → IsRoundConstant c constant → (b : ℕ) → b < 2 → state b result ≡ next_round_key c (state b k) }
{
    let t = last_column(sub_bytes(k));
    let w = xor_words(k, &t);
    let x = xor_words(w, &constant);
    let y = xor_words(x, &column_before(x));
    xor_words(y, &two_columns_before(y))
}

/// AES-128 under one key, with its round keys (FIPS 197, section 5), for one or two blocks at once.
///
/// A contract sees the 16 octets of the key. It takes 368 octets, and making one costs about what encrypting a block does.
#[derive(Drop)]
pub struct SlicedAes {
    key: [u8; 16],
    // Each of the eleven round keys sliced, the same for both blocks.
    keys: [[u32; 8]; 11],
}

impl Model for SlicedAes {
    ghost Value = { List ℕ };

    ghost view = { λ a. a.key };

    ghost invariant = { λ a. IsSlicedSchedule a.key a.keys };
}

impl SlicedAes {
    /// Whether [`SlicedAes::encrypt_two`] makes two blocks at the cost of one.
    pub const MAKES_PAIRS: bool = true;

    /// Expands the key (FIPS 197, section 5.2).
    pub fn new(key: &Key) -> SlicedAes
        ensures { result ≡ key.now.0 }
    {
        let k0 = pack(&key.0, &key.0);
        let k1 = sliced_next_round_key(k0, [3, 0, 0, 0, 0, 0, 0, 0]);
        let k2 = sliced_next_round_key(k1, [0, 3, 0, 0, 0, 0, 0, 0]);
        let k3 = sliced_next_round_key(k2, [0, 0, 3, 0, 0, 0, 0, 0]);
        let k4 = sliced_next_round_key(k3, [0, 0, 0, 3, 0, 0, 0, 0]);
        let k5 = sliced_next_round_key(k4, [0, 0, 0, 0, 3, 0, 0, 0]);
        let k6 = sliced_next_round_key(k5, [0, 0, 0, 0, 0, 3, 0, 0]);
        let k7 = sliced_next_round_key(k6, [0, 0, 0, 0, 0, 0, 3, 0]);
        let k8 = sliced_next_round_key(k7, [0, 0, 0, 0, 0, 0, 0, 3]);
        let k9 = sliced_next_round_key(k8, [3, 3, 0, 3, 3, 0, 0, 0]);
        let k10 = sliced_next_round_key(k9, [0, 3, 3, 0, 3, 3, 0, 0]);
        SlicedAes {
            key: key.0,
            keys: [k0, k1, k2, k3, k4, k5, k6, k7, k8, k9, k10],
        }
    }

    /// Makes it that of `key`, and expands the key only where it is another one than before. How long this takes shows whether it is.
    pub fn renew(&mut self, key: &Key)
        ensures { self.new ≡ key.now.0 }
    {
        if !is_same(&self.key, &key.0) {
            *self = SlicedAes::new(key);
        }
    }

    /// Both encrypted blocks (section 5.1), at the cost of one.
    pub fn encrypt_two(&self, x: &[u8; 16], y: &[u8; 16]) -> ([u8; 16], [u8; 16])
        ensures first { result.0 ≡ encrypted self.now x.now }
        ensures second { result.1 ≡ encrypted self.now y.now }
    {
        let mut q = xor_words(pack(x, y), &self.keys[0]);
        'rounds: for i in 0..9 {
            let next = sliced_round(q, &self.keys[i + 1]);
            q = next;
        }
        unpack(sliced_last_round(q, &self.keys[10]))
    }

    /// The encrypted block (section 5.1). It costs what two do.
    pub fn encrypt_block(&self, block: &[u8; 16]) -> [u8; 16]
        ensures { result ≡ encrypted self.now block.now }
    {
        let (first, _) = self.encrypt_two(block, block);
        first
    }
}
