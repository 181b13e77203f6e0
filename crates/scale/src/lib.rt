#![tactic(auto)]

ghost use Rattle.std.specs.Prelude.{◌≡◌, true};
ghost use Rattle.numbers.specs.Constants.{zero32, within_of, deadzone_within_of};
ghost use Rattle.numbers.specs.Scale.{low_of, range_of, odd_of, plus_odd, turned_of, axis_scaled_of, button_scaled_of, threshold_of};
ghost use Rattle.numbers.specs.Deadzone.{inside_of, norm_of, shrunk_of, deadzone_of};
ghost use Rattle.numbers.specs.Tilt.{tilt_at, tilted_of};
ghost use Rattle.numbers.specs.Jitter.{abs_of, jitter_of};

use numbers::{Pair, Tilt, Tilted};

// the least of 01's min, max and raw values, and one past the largest
const LEAST: i32 = -8388608;

const LIMIT: i32 = 8388608;
// the deadzone field of an element that has none, and one past the largest deadzone
const ABSENT: u32 = 0xffff_ffff;

const DEADZONE_LIMIT: u32 = 16777216;
// gilrs's `DEFAULT_DEADZONE`, and the threshold of its `Jitter::new`
const DEFAULT_THRESHOLD: f32 = 0.1;

const JITTER_LIMIT: f32 = 0.01;

// ---- 01's limits

// whether a min, a max or a raw value is one that 01 allows
#[tactic(auto, unfolding(numbers::specs::Constants::within_of))]
pub fn within(raw: i32) -> bool
    ensures { result ≡ within_of raw }
{
    (LEAST..LIMIT).contains(&raw)
}

// whether a sheet's deadzone field is one that 01 allows
#[tactic(auto, unfolding(numbers::specs::Constants::deadzone_within_of))]
pub fn deadzone_within(deadzone: u32) -> bool
    ensures { result ≡ deadzone_within_of deadzone }
{
    deadzone == ABSENT || deadzone < DEADZONE_LIMIT
}

// ---- what an axis element keeps of its min and max

// An axis element's lowest value, as binary32.
#[tactic(auto, using(crate::specs::Casts::cast_fits), unfolding(numbers::specs::Scale::low_of))]
pub fn low_of(min: i32) -> f32
    requires { within_of min ≡ true }
    ensures { result ≡ low_of min }
{
    min as f32
}

// Its range, max - min, as binary32.
#[tactic(auto, using(crate::specs::Casts::cast_fits), unfolding(numbers::specs::Scale::range_of))]
pub fn range_of(min: i32, max: i32) -> f32
    requires { (within_of min ≡ true) × (within_of max ≡ true) }
    ensures { result ≡ range_of min max }
{
    (max as f32) - (min as f32)
}

// Whether its range is odd, which gilrs scales by another formula.
#[tactic(auto, unfolding(numbers::specs::Scale::odd_of))]
pub fn odd_of(min: i32, max: i32) -> bool
    requires { (within_of min ≡ true) × (within_of max ≡ true) }
    ensures { result ≡ odd_of min max }
{
    (max - min) % 2 == 1
}

// ---- scaling

// the odd rule
#[tactic(auto, unfolding(numbers::specs::Scale::plus_odd))]
fn plus_odd(odd: bool, x: f32) -> f32
    ensures { result ≡ plus_odd odd x }
{
    if odd { x + 1.0 } else { x }
}

// the Y rule
#[tactic(auto, unfolding(numbers::specs::Scale::turned_of))]
fn turned(reversed: bool, x: f32) -> f32
    ensures { result ≡ turned_of reversed x }
{
    if reversed && x != 0.0 { -x } else { x }
}

// gilrs's `axis_value`
#[tactic(auto, using(crate::specs::Casts::cast_fits), unfolding(numbers::specs::Scale::axis_scaled_of))]
pub fn axis_value(low: f32, range: f32, odd: bool, reversed: bool, raw: i32) -> f32
    requires { within_of raw ≡ true }
    ensures { result ≡ axis_scaled_of low range odd reversed raw }
{
    let v = plus_odd(odd, (raw as f32) - low);
    let whole = plus_odd(odd, range);
    binary32::clamp(turned(reversed, v / whole * 2.0 - 1.0), -1.0, 1.0)
}

// gilrs's `btn_value`
#[tactic(auto, using(crate::specs::Casts::cast_fits), unfolding(numbers::specs::Scale::button_scaled_of))]
pub fn button_value(low: f32, range: f32, raw: i32) -> f32
    requires { within_of raw ≡ true }
    ensures { result ≡ button_scaled_of low range raw }
{
    binary32::clamp(((raw as f32) - low) / range, 0.0, 1.0)
}

// ---- the deadzone

// gilrs's `Gamepad::deadzone`
#[tactic(auto, unfolding(numbers::specs::Scale::threshold_of))]
pub fn threshold_of(min: i32, max: i32, deadzone: u32) -> f32
    requires { ((within_of min ≡ true) × (within_of max ≡ true)) × (deadzone_within_of deadzone ≡ true) }
    ensures { result ≡ threshold_of min max deadzone }
{
    if deadzone == ABSENT {
        DEFAULT_THRESHOLD
    } else {
        (deadzone as f32) / range_of(min, max) * 2.0
    }
}

// "at or below the threshold"
#[tactic(auto, unfolding(numbers::specs::Deadzone::inside_of))]
fn inside(magnitude: f32, threshold: f32) -> bool
    ensures { result ≡ inside_of magnitude threshold }
{
    magnitude <= threshold
}

// (0, 0) inside, else both times norm
#[tactic(auto, unfolding(numbers::specs::Deadzone::norm_of, numbers::specs::Deadzone::shrunk_of))]
fn shrunk_by(m: f32, threshold: f32, x: f32, y: f32) -> Pair
    ensures { result ≡ shrunk_of (inside_of m threshold) (norm_of m threshold) x y }
{
    if inside(m, threshold) {
        Pair { x: 0.0, y: 0.0 }
    } else {
        let norm = ((m - threshold) / (1.0 - threshold)) / m;
        Pair {
            x: x * norm,
            y: y * norm,
        }
    }
}

// A button's value by gilrs's `apply_deadzone`, beside which no partner stands. A threshold of 0, as triggers have, leaves it as it is: no root is needed.
#[tactic(auto, unfolding(numbers::specs::Deadzone::deadzone_of))]
pub fn shrink_value(x: f32, threshold: f32) -> f32
    ensures { result ≡ (deadzone_of x zero32 threshold).x }
{
    if threshold == 0.0 && 0.0 < x * x + 0.0 * 0.0 {
        x
    } else {
        shrunk_by(binary32::magnitude(x, 0.0), threshold, x, 0.0).x
    }
}

// Which of three a magnitude is: inside the dead zone, at full tilt, or in between.
#[tactic(auto, unfolding(numbers::specs::Tilt::tilt_at))]
fn tilt_by(magnitude: f32, threshold: f32) -> Tilt
    ensures { result ≡ tilt_at magnitude threshold }
{
    if inside(magnitude, threshold) {
        Tilt::Inside
    } else if magnitude == 1.0 {
        Tilt::Full
    } else {
        Tilt::Between
    }
}

// gilrs's `apply_deadzone`, and which of the three it was. Full tilt needs no root: where the squares reach 1 the magnitude is held to 1, and a threshold from 0 up
// to below 1 leaves the pair as it was.
#[tactic(auto, unfolding(numbers::specs::Tilt::tilted_of, numbers::specs::Deadzone::deadzone_of, numbers::specs::Tilt::tilt_of))]
pub fn apply_deadzone(x: f32, y: f32, threshold: f32) -> Tilted
    ensures { result ≡ tilted_of x y threshold }
{
    if 1.0 <= x * x + y * y && 0.0 <= threshold && !inside(1.0, threshold) {
        return Tilted {
            pair: Pair { x, y },
            tilt: Tilt::Full,
        };
    }
    let m = binary32::magnitude(x, y);
    Tilted {
        pair: shrunk_by(m, threshold, x, y),
        tilt: tilt_by(m, threshold),
    }
}

// ---- jitter

// gilrs's `abs`, as a comparison: it leaves -0.0 and a NaN as they are, which `f32::abs` does not.
#[tactic(auto, unfolding(numbers::specs::Jitter::abs_of))]
fn abs(x: f32) -> f32
    ensures { result ≡ abs_of x }
{
    if x < 0.0 { -x } else { x }
}

// the test of gilrs's `Jitter`
#[tactic(auto, unfolding(numbers::specs::Jitter::jitter_of))]
pub fn jitters(value: f32, stored: f32) -> bool
    ensures { result ≡ jitter_of value stored }
{
    value != 0.0 && abs(value - stored) < JITTER_LIMIT
}
