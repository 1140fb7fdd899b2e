// The S-box worked out, at the eight bytes of each of three words at once and with no table: the inverse and the affine step of
// FIPS 197, 5.1.1, by a circuit of 115 gates (Boyar and Peralta). A gate does to each bit of its words the same, so a word can hold a
// bit of many bytes. The parts are named after what the circuit does with one byte: it goes over to the field of 16 elements, where
// an inverse takes few gates, and comes back.
ghost use Rattle.std.specs.Prelude.{◌≡◌, ◌++◌};
ghost use Rattle.cipher.specs.KeyExpansion.{sub_word};
ghost use Rattle.cipher.specs.Words.{OnHalves};
ghost use Rattle.cipher.specs.Circuit.{bits, sums, norm, inverses, products, outs, through, summing, norming, inverting, multiplying, gathering, Swapped, fives, threes, stacked, planes, first_out, second_out, third_out};

// The bits of a byte, the lowest first.
#[derive(Clone, Copy)]
pub(crate) struct Bits {
    pub(crate) x7: u64,
    pub(crate) x6: u64,
    pub(crate) x5: u64,
    pub(crate) x4: u64,
    pub(crate) x3: u64,
    pub(crate) x2: u64,
    pub(crate) x1: u64,
    pub(crate) x0: u64,
}

// The sums of its bits that are multiplied.
#[derive(Clone, Copy)]
pub(crate) struct Sums {
    pub(crate) x7: u64,
    pub(crate) y1: u64,
    pub(crate) y2: u64,
    pub(crate) y3: u64,
    pub(crate) y4: u64,
    pub(crate) y5: u64,
    pub(crate) y6: u64,
    pub(crate) y7: u64,
    pub(crate) y8: u64,
    pub(crate) y9: u64,
    pub(crate) y10: u64,
    pub(crate) y11: u64,
    pub(crate) y12: u64,
    pub(crate) y13: u64,
    pub(crate) y14: u64,
    pub(crate) y15: u64,
    pub(crate) y16: u64,
    pub(crate) y17: u64,
    pub(crate) y18: u64,
    pub(crate) y19: u64,
    pub(crate) y20: u64,
    pub(crate) y21: u64,
}

// The norm of the byte, in the field of 16 elements.
#[derive(Clone, Copy)]
pub(crate) struct Norm {
    pub(crate) t21: u64,
    pub(crate) t22: u64,
    pub(crate) t23: u64,
    pub(crate) t24: u64,
}

// The inverse of the norm, and sums of its bits.
#[derive(Clone, Copy)]
pub(crate) struct Inverse {
    pub(crate) t29: u64,
    pub(crate) t33: u64,
    pub(crate) t37: u64,
    pub(crate) t40: u64,
    pub(crate) t41: u64,
    pub(crate) t42: u64,
    pub(crate) t43: u64,
    pub(crate) t44: u64,
    pub(crate) t45: u64,
}

// The products of these with the sums.
#[derive(Clone, Copy)]
pub(crate) struct Products {
    pub(crate) z0: u64,
    pub(crate) z1: u64,
    pub(crate) z2: u64,
    pub(crate) z3: u64,
    pub(crate) z4: u64,
    pub(crate) z5: u64,
    pub(crate) z6: u64,
    pub(crate) z7: u64,
    pub(crate) z8: u64,
    pub(crate) z9: u64,
    pub(crate) z10: u64,
    pub(crate) z11: u64,
    pub(crate) z12: u64,
    pub(crate) z13: u64,
    pub(crate) z14: u64,
    pub(crate) z15: u64,
    pub(crate) z16: u64,
    pub(crate) z17: u64,
}

// The bits of the S-box, all but for the constant 63. A bit and the one four above it stand together.
#[derive(Clone, Copy)]
pub(crate) struct Outs {
    pub(crate) s7: u64,
    pub(crate) s3: u64,
    pub(crate) s6: u64,
    pub(crate) s2: u64,
    pub(crate) s5: u64,
    pub(crate) s1: u64,
    pub(crate) s4: u64,
    pub(crate) s0: u64,
}

#[derive(Clone, Copy)]
struct Pair {
    a: u64,
    b: u64,
}

#[derive(Clone, Copy)]
pub(crate) struct Triple {
    pub(crate) a: u64,
    pub(crate) b: u64,
    pub(crate) c: u64,
}

// The odd bits of a and the even bits of b change places. Two functions, so that distance and mask are constants of the code.
fn swapped_ones(a: u64, b: u64) -> Pair
    ensures { Swapped 1 fives a b result.a result.b }
{
    let t = ((a >> 1) ^ b) & 0x5555555555555555;
    Pair {
        a: a ^ (t << 1),
        b: b ^ t,
    }
}

// The upper two bits of each half byte of a and the lower two of b change places.
fn swapped_twos(a: u64, b: u64) -> Pair
    ensures { Swapped 2 threes a b result.a result.b }
{
    let t = ((a >> 2) ^ b) & 0x3333333333333333;
    Pair {
        a: a ^ (t << 2),
        b: b ^ t,
    }
}

// The bits of each byte of three words. Of a byte in the circuit the lowest three bits count, one for each word.
fn bits_of(a: u64, b: u64, c: u64) -> Bits
    ensures { bits result ≡ planes a b c }
{
    let x = swapped_ones(a, b);
    let y = swapped_ones(c, 0);
    let u = swapped_twos(x.a, y.a);
    let v = swapped_twos(x.b, y.b);
    Bits {
        x7: u.a,
        x6: v.a,
        x5: u.b,
        x4: v.b,
        x3: u.a >> 4,
        x2: v.a >> 4,
        x1: u.b >> 4,
        x0: v.b >> 4,
    }
}

fn sums_of(x: Bits) -> Sums
    ensures { sums result ≡ through summing (bits x) }
{
    let y14 = x.x3 ^ x.x5;
    let y13 = x.x0 ^ x.x6;
    let y9 = x.x0 ^ x.x3;
    let y8 = x.x0 ^ x.x5;
    let t0 = x.x1 ^ x.x2;
    let y1 = t0 ^ x.x7;
    let y4 = y1 ^ x.x3;
    let y12 = y13 ^ y14;
    let y2 = y1 ^ x.x0;
    let y5 = y1 ^ x.x6;
    let y3 = y5 ^ y8;
    let t1 = x.x4 ^ y12;
    let y15 = t1 ^ x.x5;
    let y20 = t1 ^ x.x1;
    let y6 = y15 ^ x.x7;
    let y10 = y15 ^ t0;
    let y11 = y20 ^ y9;
    let y7 = x.x7 ^ y11;
    let y17 = y10 ^ y11;
    let y19 = y10 ^ y8;
    let y16 = t0 ^ y11;
    let y21 = y13 ^ y16;
    let y18 = x.x0 ^ y16;
    Sums {
        x7: x.x7,
        y1,
        y2,
        y3,
        y4,
        y5,
        y6,
        y7,
        y8,
        y9,
        y10,
        y11,
        y12,
        y13,
        y14,
        y15,
        y16,
        y17,
        y18,
        y19,
        y20,
        y21,
    }
}

fn norm_of(y: Sums) -> Norm
    ensures { norm result ≡ through norming (sums y) }
{
    let t2 = y.y12 & y.y15;
    let t3 = y.y3 & y.y6;
    let t4 = t3 ^ t2;
    let t5 = y.y4 & y.x7;
    let t6 = t5 ^ t2;
    let t7 = y.y13 & y.y16;
    let t8 = y.y5 & y.y1;
    let t9 = t8 ^ t7;
    let t10 = y.y2 & y.y7;
    let t11 = t10 ^ t7;
    let t12 = y.y9 & y.y11;
    let t13 = y.y14 & y.y17;
    let t14 = t13 ^ t12;
    let t15 = y.y8 & y.y10;
    let t16 = t15 ^ t12;
    let t17 = t4 ^ t14;
    let t18 = t6 ^ t16;
    let t19 = t9 ^ t14;
    let t20 = t11 ^ t16;
    let t21 = t17 ^ y.y20;
    let t22 = t18 ^ y.y19;
    let t23 = t19 ^ y.y21;
    let t24 = t20 ^ y.y18;
    Norm { t21, t22, t23, t24 }
}

fn inverse_of(n: Norm) -> Inverse
    ensures { inverses result ≡ through inverting (norm n) }
{
    let t25 = n.t21 ^ n.t22;
    let t26 = n.t21 & n.t23;
    let t27 = n.t24 ^ t26;
    let t28 = t25 & t27;
    let t29 = t28 ^ n.t22;
    let t30 = n.t23 ^ n.t24;
    let t31 = n.t22 ^ t26;
    let t32 = t31 & t30;
    let t33 = t32 ^ n.t24;
    let t34 = n.t23 ^ t33;
    let t35 = t27 ^ t33;
    let t36 = n.t24 & t35;
    let t37 = t36 ^ t34;
    let t38 = t27 ^ t36;
    let t39 = t29 & t38;
    let t40 = t25 ^ t39;
    let t41 = t40 ^ t37;
    let t42 = t29 ^ t33;
    let t43 = t29 ^ t40;
    let t44 = t33 ^ t37;
    let t45 = t42 ^ t41;
    Inverse {
        t29,
        t33,
        t37,
        t40,
        t41,
        t42,
        t43,
        t44,
        t45,
    }
}

fn products_of(y: Sums, v: Inverse) -> Products
    ensures { products result ≡ through multiplying (inverses v ++ sums y) }
{
    let z0 = v.t44 & y.y15;
    let z1 = v.t37 & y.y6;
    let z2 = v.t33 & y.x7;
    let z3 = v.t43 & y.y16;
    let z4 = v.t40 & y.y1;
    let z5 = v.t29 & y.y7;
    let z6 = v.t42 & y.y11;
    let z7 = v.t45 & y.y17;
    let z8 = v.t41 & y.y10;
    let z9 = v.t44 & y.y12;
    let z10 = v.t37 & y.y3;
    let z11 = v.t33 & y.y4;
    let z12 = v.t43 & y.y13;
    let z13 = v.t40 & y.y5;
    let z14 = v.t29 & y.y2;
    let z15 = v.t42 & y.y9;
    let z16 = v.t45 & y.y14;
    let z17 = v.t41 & y.y8;
    Products {
        z0,
        z1,
        z2,
        z3,
        z4,
        z5,
        z6,
        z7,
        z8,
        z9,
        z10,
        z11,
        z12,
        z13,
        z14,
        z15,
        z16,
        z17,
    }
}

fn outs_of(z: Products) -> Outs
    ensures { outs result ≡ through gathering (products z) }
{
    let t46 = z.z15 ^ z.z16;
    let t47 = z.z10 ^ z.z11;
    let t48 = z.z5 ^ z.z13;
    let t49 = z.z9 ^ z.z10;
    let t50 = z.z2 ^ z.z12;
    let t51 = z.z2 ^ z.z5;
    let t52 = z.z7 ^ z.z8;
    let t53 = z.z0 ^ z.z3;
    let t54 = z.z6 ^ z.z7;
    let t55 = z.z16 ^ z.z17;
    let t56 = z.z12 ^ t48;
    let t57 = t50 ^ t53;
    let t58 = z.z4 ^ t46;
    let t59 = z.z3 ^ t54;
    let t60 = t46 ^ t57;
    let t61 = z.z14 ^ t57;
    let t62 = t52 ^ t58;
    let t63 = t49 ^ t58;
    let t64 = z.z4 ^ t59;
    let t65 = t61 ^ t62;
    let t66 = z.z1 ^ t63;
    let t67 = t64 ^ t65;
    let s0 = t59 ^ t63;
    let s6 = t56 ^ t62;
    let s7 = t48 ^ t60;
    let s3 = t53 ^ t66;
    let s4 = t51 ^ t66;
    let s5 = t47 ^ t65;
    let s1 = t64 ^ s3;
    let s2 = t55 ^ t67;
    Outs {
        s7,
        s3,
        s6,
        s2,
        s5,
        s1,
        s4,
        s0,
    }
}

// The lower halves of the bytes of both words, those of high above those of low.
fn stacked(low: u64, high: u64) -> u64
    ensures { result ≡ stacked low high }
{
    let m: u64 = 0x0f0f0f0f0f0f0f0f;
    (low & m) ^ ((high & m) << 4)
}

// The three words that the bits make, with the constant 63.
fn words_of(s: Outs) -> Triple
    ensures { (result.a ≡ first_out (outs s)) × (result.b ≡ second_out (outs s)) × (result.c ≡ third_out (outs s)) }
{
    let x = swapped_ones(stacked(s.s7, s.s3), stacked(s.s6, s.s2));
    let y = swapped_ones(stacked(s.s5, s.s1), stacked(s.s4, s.s0));
    let u = swapped_twos(x.a, y.a);
    let v = swapped_twos(x.b, y.b);
    let k: u64 = 0x6363636363636363;
    Triple {
        a: k ^ u.a,
        b: k ^ v.a,
        c: k ^ u.b,
    }
}

pub(crate) fn sub_triple(a: u64, b: u64, c: u64) -> Triple
    ensures { OnHalves sub_word a result.a × OnHalves sub_word b result.b × OnHalves sub_word c result.c }
{
    let y = sums_of(bits_of(a, b, c));
    let v = inverse_of(norm_of(y));
    words_of(outs_of(products_of(y, v)))
}
