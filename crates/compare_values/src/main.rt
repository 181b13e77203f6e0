// Plays a stored list of values against each leaf of the arithmetic, bit for bit, and prints for each how many were played and how many came out wrong.
#![tactic(auto)]

ghost use Rattle.std.specs.Prelude.{◌<◌};

use compare_cases::{faults, value, whole, word};
use std::io;
use std::io::Print;

// how many records the list has of each leaf, each of at most five words
const RECORDS: u64 = 20000;

// whether a value has the bits of word n
fn gives(x: f32, record: &[u8; 104], n: usize) -> bool
    requires { n < 26 }
{
    binary32::bits_of(x) == word(record, n)
}

// whether a test answered as word n says
fn says(answer: bool, record: &[u8; 104], n: usize) -> bool
    requires { n < 26 }
{
    u32::from(answer) == word(record, n)
}

// ---- the leaves: whether one record comes out as the list says

fn within(record: &[u8; 104]) -> bool {
    says(scale::within(whole(record, 0)), record, 1)
}

fn root(record: &[u8; 104]) -> bool {
    gives(binary32::sqrt(value(record, 0)), record, 1)
}

fn clamp(record: &[u8; 104]) -> bool {
    let clamped = binary32::clamp(value(record, 0), value(record, 1), value(record, 2));
    gives(clamped, record, 3)
}

fn magnitude(record: &[u8; 104]) -> bool {
    gives(
        binary32::magnitude(value(record, 0), value(record, 1)),
        record,
        2,
    )
}

fn axis(record: &[u8; 104]) -> bool {
    let e = compare_cases::element(whole(record, 0), whole(record, 1));
    let reversed = word(record, 2) == 1;
    let raw = whole(record, 3);
    scale::within(raw)
        && gives(
            scale::axis_value(e.low, e.range, e.odd, reversed, raw),
            record,
            4,
        )
}

fn button(record: &[u8; 104]) -> bool {
    let e = compare_cases::element(whole(record, 0), whole(record, 1));
    let raw = whole(record, 2);
    scale::within(raw) && gives(scale::button_value(e.low, e.range, raw), record, 3)
}

fn threshold(record: &[u8; 104]) -> bool {
    let min = whole(record, 0);
    let max = whole(record, 1);
    let deadzone = word(record, 2);
    scale::within(min)
        && scale::within(max)
        && scale::deadzone_within(deadzone)
        && gives(scale::threshold_of(min, max, deadzone), record, 3)
}

// A stick's pair; and where the partner is 0.0, its first value by the way that a button's value takes.
fn deadzone(record: &[u8; 104]) -> bool {
    let x = value(record, 0);
    let threshold = value(record, 2);
    let pair = scale::apply_deadzone(x, value(record, 1), threshold).pair;
    gives(pair.x, record, 3)
        && gives(pair.y, record, 4)
        && (word(record, 1) != 0 || gives(scale::shrink_value(x, threshold), record, 3))
}

fn jitter(record: &[u8; 104]) -> bool {
    says(
        scale::jitters(value(record, 0), value(record, 1)),
        record,
        2,
    )
}

// ---- the list

fn report(out: &impl Print, name: &str, wrong: u64) -> io::Result<()> {
    println!(out; "{name} {RECORDS} {wrong} wrong")
}

fn main(rt: HostRuntime) -> io::Result<()> {
    let mut input = rt.stdin();
    let out = rt.stdout();
    report(&out, "within", faults(&mut input, RECORDS, 2, within)?)?;
    report(&out, "root", faults(&mut input, RECORDS, 2, root)?)?;
    report(&out, "clamp", faults(&mut input, RECORDS, 4, clamp)?)?;
    report(
        &out,
        "magnitude",
        faults(&mut input, RECORDS, 3, magnitude)?,
    )?;
    report(&out, "axis", faults(&mut input, RECORDS, 5, axis)?)?;
    report(&out, "button", faults(&mut input, RECORDS, 4, button)?)?;
    report(
        &out,
        "threshold",
        faults(&mut input, RECORDS, 4, threshold)?,
    )?;
    report(&out, "deadzone", faults(&mut input, RECORDS, 5, deadzone)?)?;
    report(&out, "jitter", faults(&mut input, RECORDS, 3, jitter)?)
}
