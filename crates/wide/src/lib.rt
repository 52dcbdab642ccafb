// Whole numbers of two 64-bit words: the high word is signed and never overflows, low words add and subtract with wrap on
// purpose, and the carry is found by a comparison and goes up.
//
// specs/Value.antt gives the one whole number that a pair of words stands for; every function here is proved over it. A pair is told by its value
// (`told_by_value` in proofs/Told.antt). src/low.rt has what goes by the low word alone.
#![tactic(auto)]

mod low;

ghost use Rattle.std.specs.Prelude.{◌≡◌, ◌^◌, ◌≤◌, ◌+ℤ◌, ◌-ℤ◌, ◌*ℤ◌, unsigned_abs};
ghost use Rattle.shape.specs.Signs.{sign};
ghost use Rattle.wide.specs.Value.{value};
ghost use Rattle.wide.specs.Sums.{Small};

pub use low::{low_product, told_by_low};

// hi times 2^64, and lo.
#[derive(Clone, Copy)]
pub struct Wide {
    pub hi: i64,
    pub lo: u64,
}

// The sum, where it is up to 2^126 in size. The difference stands beside it as a function of its own, since document 02 asks for both. Where its low word is below that of a, it has wrapped.
pub fn add(a: Wide, b: Wide) -> Wide
    requires { Small (value a +ℤ value b) }
    ensures { value result ≡ value a +ℤ value b }
{
    let lo = a.lo.wrapping_add(b.lo);
    if lo < a.lo {
        Wide {
            hi: a.hi + b.hi + 1,
            lo,
        }
    } else {
        Wide {
            hi: a.hi + b.hi,
            lo,
        }
    }
}

// The difference, where it is up to 2^126 in size. Where its low word is above that of a, it has wrapped.
pub fn sub(a: Wide, b: Wide) -> Wide
    requires { Small (value a -ℤ value b) }
    ensures { value result ≡ value a -ℤ value b }
{
    let lo = a.lo.wrapping_sub(b.lo);
    if a.lo < lo {
        Wide {
            hi: a.hi - b.hi - 1,
            lo,
        }
    } else {
        Wide {
            hi: a.hi - b.hi,
            lo,
        }
    }
}

// -1, 0 or 1: a number, as `sign` of crate `shape` is. `Sign` is a type of crate `exact`, which stands above.
pub fn sign(a: Wide) -> i64
    ensures { result ≡ sign (value a) }
{
    if a.hi < 0 {
        -1
    } else if a.hi == 0 && a.lo == 0 {
        0
    } else {
        1
    }
}

// The whole product of any two 64-bit numbers, as in multiplying by hand in base 2^32. By halves, since document 02 has the product of two 64-bit numbers in
// words of 64 bits: no number here is wider.
pub fn product(u: i64, v: i64) -> Wide
    ensures { value result ≡ u *ℤ v }
{
    let u1 = u >> 32;
    let u0 = u & 0xffff_ffff;
    let v1 = v >> 32;
    let v0 = v & 0xffff_ffff;
    let w = (u0 as u64) * (v0 as u64);
    let t = u1 * v0 + (w >> 32) as i64;
    let t0 = t & 0xffff_ffff;
    let s = v1 * u0 + t0;
    let s0 = s & 0xffff_ffff;
    Wide {
        hi: u1 * v1 + (t >> 32) + (s >> 32),
        lo: (s0 as u64) * 4294967296 + (w & 0xffff_ffff),
    }
}

// The whole product of a 64-bit number and one up to 2^31 in size, by two multiplications in the place of four. By halves, too.
pub fn scaled(m: i64, d: i64) -> Wide
    requires { unsigned_abs d ≤ 2 ^ 31 }
    ensures { value result ≡ m *ℤ d }
{
    let m1 = m >> 32;
    let m0 = m & 0xffff_ffff;
    let p = m0 * d;
    let p0 = p & 0xffff_ffff;
    let q = m1 * d + (p >> 32);
    let q0 = q & 0xffff_ffff;
    Wide {
        hi: q >> 32,
        lo: (q0 as u64) * 4294967296 + p0 as u64,
    }
}
