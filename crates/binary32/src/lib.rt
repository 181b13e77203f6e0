// binary32 by its bits: a value and its bits, gilrs's clamp, and the square root worked out on whole numbers, which is IEEE 754's for every f32.
#![tactic(auto)]

ghost use Rattle.std.specs.Prelude.{◌≡◌, ◌+◌, ◌-◌, ◌*◌, ◌/◌, ◌%◌, ◌≤◌, ◌<◌, ◌^◌};
ghost use Rattle.std.specs.Float.Ieee as Ieee;
ghost use Rattle.std.specs.Float.{binary32};
ghost use Rattle.numbers.specs.Clamp.{clamp_of};
ghost use Rattle.numbers.specs.Root.{near, root_units, sqrt_of, magnitude_of};
ghost use Rattle.binary32.specs.WholeRoot.{Floor};
ghost use Rattle.binary32.specs.Units.{Apart, units_at};

// 2^23, the weight of the exponent's field in the bits
const FIELD: u32 = 0x80_0000;
// 2^23, the weight of a significand's leading digit; a significand of 24 digits lies below twice that
const LEADING_DIGIT: u64 = 0x80_0000;

const SIGNIFICANDS: u64 = 0x100_0000;
// the weight of the sign in the bits
const MINUS: u32 = 0x8000_0000;
// the bits of +∞, the first pattern after those of the finite numbers
const INFINITY: u32 = 0x7f80_0000;

// the bits that stand for a NaN
const NAN: u32 = 0x7fc0_0000;

// the value with these bits: every NaN pattern is the one NaN
pub fn of_bits(bits: u32) -> f32
    ensures { result ≡ Ieee.of_bits binary32 bits }
{
    if INFINITY < bits % MINUS {
        f32::NAN
    } else {
        f32::from_bits(bits)
    }
}

// the bits of a value: 0x7fc00000 for a NaN, whose own are not known
pub fn bits_of(x: f32) -> u32
    ensures { result ≡ Ieee.to_bits binary32 x }
{
    if x.is_nan() { NAN } else { x.to_bits() }
}

// gilrs's `utils::clamp`: `f32::clamp` asks that the limits are in order, and this contract asks nothing.
#[tactic(auto, unfolding(numbers::specs::Clamp::clamp_of))]
pub fn clamp(x: f32, lo: f32, hi: f32) -> f32
    ensures { result ≡ clamp_of x lo hi }
{
    if x < lo {
        lo
    } else if hi < x {
        hi
    } else {
        x
    }
}

// Newton's step towards the root of w
fn closer(w: u64, s: u64) -> u64
    requires { (0 < s) × ((s ≤ 2 ^ 24) × (w < 2 ^ 48)) }
    ensures { result ≡ (s + w / s) / 2 }
{
    (s + w / s) / 2
}

// the whole part of the root of a number below 2^48, by Newton's steps from above: some five, where `u64::isqrt` halves an interval 32 times
fn floor_root(w: u64) -> u64
    requires { (0 < w) × (w < 2 ^ 48) }
    ensures { Floor w result }
{
    let mut s = closer(w, SIGNIFICANDS);
    let mut t = closer(w, s);
    while t < s {
        s = t;
        t = closer(w, s);
    }
    s
}

// the whole number nearest to the root
fn near_root(w: u64) -> u64
    requires { (0 < w) × (w < 2 ^ 48) }
    ensures { result ≡ near w }
{
    let r = floor_root(w);
    if r < w - r * r { r + 1 } else { r }
}

// A number above 0, counted in units of 2^-149 (the smallest binary32): 2^24 times its units is m * 2^z, and m has 24 binary digits.
#[derive(Clone, Copy)]
pub struct Leading {
    pub m: u64,
    pub z: u32,
}

// The same from the bits of a finite number above 0: the significand of a subnormal one is doubled until it has 24 digits.
#[tactic(auto, unfolding(crate::specs::Units::units_at))]
fn apart(bits: u32) -> Leading
    requires { (0 < bits) × (bits < 0x7f80_0000) }
    ensures { Apart (units_at bits) result.m result.z }
{
    let field = bits / FIELD;
    let mut m = (bits % FIELD) as u64;
    if field != 0 {
        return Leading {
            m: m + LEADING_DIGIT,
            z: field + 23,
        };
    }
    let mut z: u32 = 24;
    while m < LEADING_DIGIT {
        m = m * 2;
        z = z - 1;
    }
    Leading { m, z }
}

// moved up by 23 or 24 places, so that the exponent is even
fn even(m: u64, z: u32) -> u64
    requires { m < 2 ^ 24 }
    ensures { result ≡ m * 2 ^ (23 + z % 2) }
{
    if z % 2 == 0 {
        m * LEADING_DIGIT
    } else {
        m * SIGNIFICANDS
    }
}

// the root of a finite number above 0, from its bits
#[tactic(auto, unfolding(numbers::specs::Root::root_units))]
fn positive(bits: u32) -> f32
    requires { (0 < bits) × (bits < 0x7f80_0000) }
    ensures { result ≡ root_units (units_at bits) }
{
    let p = apart(bits);
    let m = p.m;
    let z = p.z;
    let q = near_root(even(m, z));
    f32::from_bits((z / 2 + 51) * FIELD + (q as u32))
}

// IEEE 754's square_root, from bits, for every f32
#[tactic(auto, using(crate::proofs::Told::minus_root))]
pub fn sqrt(x: f32) -> f32
    ensures { result ≡ sqrt_of x }
{
    if x.is_nan() {
        return x;
    }
    let bits = x.to_bits();
    if bits % MINUS == 0 {
        return x;
    }
    if MINUS <= bits {
        return f32::NAN;
    }
    if INFINITY <= bits {
        return x;
    }
    positive(bits)
}

// 01's "Magnitude sqrt(x*x + y*y) held to 0..1"
#[tactic(auto, unfolding(numbers::specs::Root::magnitude_of))]
pub fn magnitude(x: f32, y: f32) -> f32
    ensures { result ≡ magnitude_of x y }
{
    clamp(sqrt(x * x + y * y), 0.0, 1.0)
}
