// The refusals of document 01, in its order: `Ok`, or the first that holds, by its number. Each function equals its definition in the law book for every
// input. What the pump's loop hands on is the number itself, 0 for none.
#![tactic(auto)]

ghost use Rattle.std.specs.Prelude.{◌≡◌, true, cond, not, ◌&&◌, ◌||◌, eqb, ltb};
ghost use Rattle.rules.specs.Refusals.{in_unit, thresholds_refusal, is_registered, value_fits, time_fits, element_refusal, fields_refusal, record_refusal};
ghost use Rattle.rules.specs.Refusals.{code_refusal, form_refusal, insert_refusal, pump_refusal, repeat_refusal};
ghost use Rattle.rules.specs.Refusals.{button_query_refusal, axis_query_refusal, name_query_refusal, unless_fits, judged};
ghost use Rattle.rules.specs.Refusals as Refusals;
ghost use Rattle.rules.specs.Sheets.{partial_of};

use rules::{
    ELEMENT_AXIS, ELEMENT_BUTTON, EVENT_AXIS, EventForm, KIND_AXIS, LAST_HATS, NOWHERE, NextRecord,
    PADS, RawRecord, Refusal,
};

const LAST_TIME: u64 = 0x3fff_ffff_ffff_ffff;

const LAST_WAIT: u64 = 60_000_000;

const BUFFER_LIMIT: usize = 16_384;

const INSERT_LIMIT: u8 = 16;

// ---- in order: a number where the input does not fit, and the first number that there is

// A refusal's number where something does not fit, else 0.
pub fn unless_fits(fits: bool, number: u8) -> u8
    ensures { result ≡ unless_fits fits number }
{
    if fits { 0 } else { number }
}

// The refusal of a number, where it is one.
pub fn judge(number: u8) -> Result<(), Refusal>
    ensures { result ≡ judged number }
{
    if number == 0 {
        Ok(())
    } else {
        Err(Refusal { number })
    }
}

// The refusal of a number where something does not fit.
pub fn refuse_unless(fits: bool, number: u8) -> Result<(), Refusal>
    ensures { result ≡ judged (unless_fits fits number) }
{
    judge(unless_fits(fits, number))
}

// The first refusal of two: 0 is none.
pub fn first(a: u8, b: u8) -> u8
    ensures { result ≡ Refusals.first a b }
{
    if a == 0 { b } else { a }
}

// ---- 1

#[tactic(auto, unfolding(rules::specs::Refusals::in_unit))]
fn in_unit(x: f32) -> bool
    ensures { result ≡ in_unit x }
{
    choices::both(0.0 <= x, x <= 1.0)
}

// 1: thresholds of `new` that do not lie in 0..1 with released below pressed.
#[tactic(auto, unfolding(rules::specs::Refusals::thresholds_refusal))]
pub fn thresholds_refusal(pressed: f32, released: f32) -> Result<(), Refusal>
    ensures { result ≡ judged (thresholds_refusal pressed released) }
{
    refuse_unless(
        in_unit(pressed) && in_unit(released) && released < pressed,
        1,
    )
}

// ---- 6

// Whether a pad is registered.
#[tactic(auto, unfolding(rules::specs::Refusals::is_registered))]
pub fn is_registered(pads: u8, p: u8) -> bool
    ensures { result ≡ is_registered pads p }
{
    choices::both(p < pads, p < PADS)
}

// ---- 11 and 12

// Whether an event's value lies in -1..1, by its bits.
#[tactic(auto, unfolding(rules::specs::Refusals::value_fits))]
pub fn value_fits(bits: u32) -> bool
    ensures { result ≡ value_fits bits }
{
    bits % 0x8000_0000 <= 0x3f80_0000
}

// Whether a time is below 2^62.
#[tactic(auto, unfolding(rules::specs::Refusals::time_fits))]
pub fn time_fits(time: u64) -> bool
    ensures { result ≡ time_fits time }
{
    time <= LAST_TIME
}

// ---- records: 8, 6, 9, 10, 11, 12

// The kind of element that a record speaks of.
fn spoken(kind: u8) -> u8
    ensures { result ≡ cond (eqb kind 3) 2 1 }
{
    if kind == KIND_AXIS {
        ELEMENT_AXIS
    } else {
        ELEMENT_BUTTON
    }
}

#[tactic(auto, unfolding(rules::specs::Refusals::element_refusal))]
fn element_refusal(recordkind: u8, kind: u8) -> u8
    ensures { result ≡ element_refusal recordkind kind }
{
    if KIND_AXIS < recordkind {
        0
    } else if kind == 0 {
        9
    } else {
        unless_fits(kind == spoken(recordkind), 10)
    }
}

// The refusal of a record that is well formed: 6, 9, 10, 11, 12.
#[tactic(auto, unfolding(rules::specs::Refusals::fields_refusal))]
pub fn fields_refusal(raw: RawRecord, pads: u8, kind: u8) -> u8
    ensures { result ≡ fields_refusal raw pads kind }
{
    first(
        unless_fits(is_registered(pads, raw.pad), 6),
        first(
            element_refusal(raw.kind, kind),
            first(
                unless_fits(scale::within(raw.value), 11),
                unless_fits(time_fits(raw.time), 12),
            ),
        ),
    )
}

// Whether an element's kind is the one that a record speaks of, where it speaks of one.
fn element_fits(recordkind: u8, kind: u8) -> bool
    ensures { result ≡ (ltb 3 recordkind || eqb kind (cond (eqb recordkind 3) 2 1)) }
{
    (KIND_AXIS < recordkind) | (kind == spoken(recordkind))
}

// Whether a record is well formed and not refused, as most are: one answer of all tests, none of which ends the others, in place of the first number of six.
#[tactic(auto, unfolding(rules::specs::Refusals::element_refusal, rules::specs::Refusals::record_refusal, rules::specs::Refusals::fields_refusal, rules::specs::Refusals::is_registered))]
fn record_fits(l: NextRecord, pads: u8, kind: u8) -> bool
    ensures { result ≡ true → record_refusal l pads kind ≡ 0 }
{
    let raw = l.raw;
    l.fits
        & (raw.pad < pads)
        & (raw.pad < PADS)
        & element_fits(raw.kind, kind)
        & scale::within(raw.value)
        & time_fits(raw.time)
}

// The refusal of the record that a step looks at: 8, then those of its fields.
#[tactic(auto, unfolding(rules::specs::Refusals::record_refusal))]
pub fn record_refusal(l: NextRecord, pads: u8, kind: u8) -> u8
    ensures { result ≡ record_refusal l pads kind }
{
    if record_fits(l, pads, kind) {
        return 0;
    }
    let raw = l.raw;
    first(unless_fits(l.fits, 8), fields_refusal(raw, pads, kind))
}

// ---- events: 8 by the reader, then 6, 9, 11, 12, and 13 for an insert

#[tactic(auto, unfolding(rules::specs::Refusals::code_refusal))]
fn code_refusal(kind: u8, place: usize) -> Result<(), Refusal>
    ensures { result ≡ judged (code_refusal kind place) }
{
    refuse_unless(EVENT_AXIS < kind || place < NOWHERE, 9)
}

// The refusal of an event that `update` is given: 6, 9, 11, 12.
#[tactic(auto, unfolding(rules::specs::Refusals::form_refusal))]
pub fn form_refusal(f: EventForm, pads: u8, place: usize) -> Result<(), Refusal>
    ensures { result ≡ judged (form_refusal f pads place) }
{
    pad_refusal(pads, f.pad)?;
    code_refusal(f.kind, place)?;
    refuse_unless(value_fits(f.bits), 11)?;
    refuse_unless(time_fits(f.time), 12)
}

// The same for `insert_event`: also 13, where 16 or more wait.
#[tactic(auto, unfolding(rules::specs::Refusals::insert_refusal))]
pub fn insert_refusal(f: EventForm, pads: u8, place: usize, waiting: u8) -> Result<(), Refusal>
    ensures { result ≡ judged (insert_refusal f pads place waiting) }
{
    form_refusal(f, pads, place)?;
    refuse_unless(waiting < INSERT_LIMIT, 13)
}

// ---- the pump: 14, then 8 for a place past the end

// The refusal of a whole pump call: 14, a buffer is too long; 8, the place lies past the batch.
#[tactic(auto, unfolding(rules::specs::Refusals::pump_refusal))]
pub fn pump_refusal(batch: usize, out: usize, place: usize) -> u8
    ensures { result ≡ pump_refusal batch out place }
{
    if choices::either(BUFFER_LIMIT < batch, BUFFER_LIMIT < out) {
        14
    } else {
        unless_fits(place <= batch, 8)
    }
}

// ---- repeat: 15, 12

// The refusal of `repeat`: 15, then 12.
#[tactic(auto, unfolding(rules::specs::Refusals::repeat_refusal))]
pub fn repeat_refusal(after: u64, every: u64, now: u64) -> Result<(), Refusal>
    ensures { result ≡ judged (repeat_refusal after every now) }
{
    let fits = after <= LAST_WAIT && (1..=LAST_WAIT).contains(&every);
    refuse_unless(fits, 15)?;
    refuse_unless(time_fits(now), 12)
}

// ---- registration: 29

// W-212: whether one to three directions are mapped, the low four bits being 1 to 14.
#[tactic(auto, unfolding(rules::specs::Sheets::partial_of))]
pub fn partial_hats(hats: u8) -> bool
    ensures { result ≡ partial_of hats }
{
    let low = hats % (LAST_HATS + 1);
    choices::both(0 < low, low < LAST_HATS)
}

// 29: partial hats, but for an archived sheet.
pub fn hats_refusal(archived: bool, hats: u8) -> Result<(), Refusal>
    ensures { result ≡ judged (cond (not archived && partial_of hats) 29 0) }
{
    refuse_unless(archived || !partial_hats(hats), 29)
}

// ---- queries: 6, 16

// 6: a pad that is not registered.
pub fn pad_refusal(pads: u8, p: u8) -> Result<(), Refusal>
    ensures { result ≡ judged (unless_fits (is_registered pads p) 6) }
{
    refuse_unless(is_registered(pads, p), 6)
}

// 6, then 16 where the name is not of the sort asked.
fn named_refusal(pads: u8, p: u8, sort: bool) -> Result<(), Refusal>
    ensures { result ≡ judged (Refusals.first (unless_fits (is_registered pads p) 6) (unless_fits sort 16)) }
{
    pad_refusal(pads, p)?;
    refuse_unless(sort, 16)
}

// The refusal of a query by a button's name: 6, 16.
#[tactic(auto, unfolding(rules::specs::Refusals::button_query_refusal))]
pub fn button_query_refusal(pads: u8, p: u8, name: u8) -> Result<(), Refusal>
    ensures { result ≡ judged (button_query_refusal pads p name) }
{
    named_refusal(pads, p, names::names_button(name))
}

// The refusal of a query by an axis's name: 6, 16.
#[tactic(auto, unfolding(rules::specs::Refusals::axis_query_refusal))]
pub fn axis_query_refusal(pads: u8, p: u8, name: u8) -> Result<(), Refusal>
    ensures { result ≡ judged (axis_query_refusal pads p name) }
{
    named_refusal(pads, p, names::names_axis(name))
}

// The refusal of a query by a name of either kind: 6, 16.
#[tactic(auto, unfolding(rules::specs::Refusals::name_query_refusal))]
pub fn name_query_refusal(pads: u8, p: u8, name: u8) -> Result<(), Refusal>
    ensures { result ≡ judged (name_query_refusal pads p name) }
{
    named_refusal(
        pads,
        p,
        choices::either(names::names_button(name), names::names_axis(name)),
    )
}
