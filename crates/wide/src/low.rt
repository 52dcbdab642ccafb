// The low word of a number alone: its lowest 64 bits. Sums and products of low words wrap on purpose, and what goes up from them is never asked for, since
// a number that is known to be smaller than 2^63 in size is told by its low word.
ghost use Rattle.std.specs.Prelude.{◌≡◌, ◌^◌, ◌<◌, ℤ, ◌*ℤ◌, unsigned_abs};
ghost use Rattle.wide.specs.Low.{HasLowWord};

// The low word of the product of two numbers: that of the product of their bits, by one multiplication.
pub fn low_product(u: i64, v: i64) -> u64
    ensures { HasLowWord (u *ℤ v) result }
{
    u.cast_unsigned().wrapping_mul(v.cast_unsigned())
}

// The number that a low word tells, where it is smaller than 2^63 in size.
pub fn told_by_low(w: u64) -> i64
    ensures { (z : ℤ) → HasLowWord z w → unsigned_abs z < 2 ^ 63 → result ≡ z }
{
    w.cast_signed()
}
