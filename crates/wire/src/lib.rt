// The byte forms of document 01, "ours, big-endian": fields of every width, raw records and events read, and events written.
#![tactic(auto)]

ghost use Rattle.std.specs.Prelude.{◌≡◌, ◌++◌, ◌+◌, ◌≤◌, ◌<◌, ◌^◌, length, drop};
ghost use Rattle.rules.specs.Forms.{field_of, signed_of, opens, record_kind_fits, read_record, name_fits, event_kind_fits, read_event, form_bytes};
ghost use Rattle.rules.specs.Events.{event_bytes};
ghost use Rattle.rules.specs.Step.{next_record_of};
ghost use Rattle.wire.specs.Bytes.{swapped_of, laid_out};

use events::{EVENT_CHANGED, EVENT_DROPPED, EVENT_PRESSED};
use rules::{
    EVENT_AXIS, EVENT_SIZE, Event, EventForm, KIND_AXIS, KIND_CONNECTED, KIND_DISCONNECTED,
    KIND_PRESSED, NO_NAME, NextRecord, RECORD_SIZE, RawRecord,
};

// ---- sizes, kinds and limits

const VERSION: u8 = 1;

// the bytes of an event that follow its count
const EVENT_COUNT: u8 = 20;

// ---- fields

// The bytes from a place on as one number, the highest first: one reader for every width up to 8.
#[tactic(auto, unfolding(rules::specs::Forms::field_of))]
pub fn field(s: &[u8], at: usize, width: usize) -> u64
    requires { (width ≤ 8) × (at + width ≤ length s.now) }
    ensures { (result ≡ field_of s.now at width) × (result < 256 ^ width) }
{
    let mut x: u64 = 0;
    for &byte in &s[at..at + width] {
        x = x * 256 + u64::from(byte);
    }
    x
}

// `field` in three widths, each as its own type: a const parameter would choose the width, and not the type that it answers.

// Two bytes as a number, the highest first.
pub fn read2(s: &[u8], at: usize) -> u16
    requires { at + 2 ≤ length s.now }
    ensures { result ≡ field_of s.now at 2 }
{
    field(s, at, 2) as u16
}

// Four bytes as a number, the highest first.
pub fn read4(s: &[u8], at: usize) -> u32
    requires { at + 4 ≤ length s.now }
    ensures { result ≡ field_of s.now at 4 }
{
    field(s, at, 4) as u32
}

// Eight bytes as a number, the highest first.
pub fn read8(s: &[u8], at: usize) -> u64
    requires { at + 8 ≤ length s.now }
    ensures { result ≡ field_of s.now at 8 }
{
    field(s, at, 8)
}

// Four bytes read as a signed number.
#[tactic(auto, unfolding(rules::specs::Forms::signed_of))]
pub fn signed_of(x: u32) -> i32
    ensures { result ≡ signed_of x }
{
    x.cast_signed()
}

// Four bytes as a signed number.
pub fn signed4(s: &[u8], at: usize) -> i32
    requires { at + 4 ≤ length s.now }
    ensures { result ≡ signed_of (field_of s.now at 4) }
{
    signed_of(read4(s, at))
}

// "All open with a 2-byte count of the bytes that follow, then version 1."
#[tactic(auto, unfolding(rules::specs::Forms::opens))]
pub fn opens_as(s: &[u8], at: usize, size: usize) -> bool
    requires { at + 3 ≤ length s.now }
    ensures { result ≡ opens s.now at size }
{
    usize::from(read2(s, at)) + 2 == size && s[at + 2] == VERSION
}

// ---- raw records

// "Value is 0 but for kind 3; code is 0 for kinds 4, 5", compared as bits.
#[tactic(auto, unfolding(rules::specs::Forms::record_kind_fits))]
fn record_kind_fits(kind: u8, code: u32, value: u32) -> bool
    ensures { result ≡ record_kind_fits kind code value }
{
    matches!(kind, KIND_PRESSED..=KIND_DISCONNECTED)
        && (kind == KIND_AXIS || value == 0)
        && (kind < KIND_CONNECTED || code == 0)
}

// The record at a place, wherever that lies: a place past the end, or with less than a record behind it, is malformed too.
pub fn read_record(s: &[u8], at: usize) -> Option<RawRecord>
    ensures { result ≡ read_record s.now at }
{
    if s.len() < at {
        return None;
    }
    if s.len() - at < RECORD_SIZE {
        return None;
    }
    if !opens_as(s, at, RECORD_SIZE) {
        return None;
    }
    let kind = s[at + 3];
    let code = read4(s, at + 5);
    let bits = read4(s, at + 9);
    if !record_kind_fits(kind, code, bits) {
        return None;
    }
    let raw = RawRecord {
        kind,
        pad: s[at + 4],
        code,
        value: signed_of(bits),
        time: read8(s, at + 13),
    };
    Some(raw)
}

// ---- events

// "kinds 6 to 8 have name 255 and code 0"; 1 to 4 have a button's name and 5 an axis's.
#[tactic(auto, unfolding(rules::specs::Forms::name_fits))]
fn name_fits(kind: u8, name: u8, code: u32) -> bool
    ensures { result ≡ name_fits kind name code }
{
    if kind <= EVENT_CHANGED {
        names::is_button(name)
    } else if kind == EVENT_AXIS {
        names::is_axis(name)
    } else {
        name == NO_NAME && code == 0
    }
}

// "Value only in 4 and 5, else 0", compared as bits.
#[tactic(auto, unfolding(rules::specs::Forms::event_kind_fits, rules::specs::Forms::has_value))]
fn event_kind_fits(kind: u8, name: u8, code: u32, bits: u32) -> bool
    ensures { result ≡ event_kind_fits kind name code bits }
{
    matches!(kind, EVENT_PRESSED..=EVENT_DROPPED)
        && name_fits(kind, name, code)
        && (matches!(kind, EVENT_CHANGED | EVENT_AXIS) || bits == 0)
}

// An event's 22 bytes, or Malformed.
pub fn read_event(s: &[u8]) -> Option<EventForm>
    ensures { result ≡ read_event s.now }
{
    if s.len() != EVENT_SIZE {
        return None;
    }
    if !opens_as(s, 0, EVENT_SIZE) {
        return None;
    }
    let kind = s[3];
    let name = s[5];
    let code = read4(s, 6);
    let bits = read4(s, 10);
    if !event_kind_fits(kind, name, code, bits) {
        return None;
    }
    let form = EventForm {
        kind,
        pad: s[4],
        name,
        code,
        bits,
        time: read8(s, 14),
    };
    Some(form)
}

// ---- an event written

// A form's bytes, its code, bits and time swapped. The compiler makes of each number's line one instruction that turns its bytes round and one store.
fn lay_out(out: &mut [u8], form: EventForm)
    requires { 22 ≤ length out.old }
    ensures { out.new ≡ laid_out form.kind form.pad form.name (swapped_of 8 form.code) (swapped_of 8 form.bits) (swapped_of 8 form.time)
        ++ drop 22 out.old }
{
    out[..6].copy_from_slice(&[0, EVENT_COUNT, VERSION, form.kind, form.pad, form.name]);
    out[6..10].copy_from_slice(&form.code.to_be_bytes());
    out[10..14].copy_from_slice(&form.bits.to_be_bytes());
    out[14..EVENT_SIZE].copy_from_slice(&form.time.to_be_bytes());
}

// One event at the start of the part that is lent; the bytes after it stay. The pump lends "the out buffer's part starting at 22 times the
// events already written".
#[tactic(auto, unfolding(rules::specs::Events::event_bytes))]
pub fn write_event(out: &mut [u8], e: Event)
    requires { 22 ≤ length out.old }
    ensures { out.new ≡ event_bytes e ++ drop 22 out.old }
{
    lay_out(out, events::form_of(e));
}

// ---- the record that a step looks at

// Where events wait a step takes the queue's front and looks at no record; a malformed record is shown as a blank one that does not fit.
#[tactic(auto, unfolding(rules::specs::Step::next_record_of))]
pub fn next_record(s: &[u8], at: usize, waiting: u8) -> NextRecord
    ensures { result ≡ next_record_of waiting s.now at }
{
    let blank = RawRecord {
        kind: 0,
        pad: 0,
        code: 0,
        value: 0,
        time: 0,
    };
    if 0 < waiting {
        return NextRecord {
            raw: blank,
            fits: true,
        };
    }
    let read = read_record(s, at);
    match read {
        Some(raw) => NextRecord { raw, fits: true },
        None => NextRecord {
            raw: blank,
            fits: false,
        },
    }
}
