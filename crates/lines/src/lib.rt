// Lines of text on lent slices: each function appends to a buffer at a place and answers the next place. Where the buffer has no room it writes
// nothing and answers the same place, so nothing is asked of a caller.
// Buffer and place are no struct: `Appended`, by which the crates above speak of a text, names both.
#![tactic(auto)]

ghost use Rattle.std.specs.Prelude.{◌≡◌, ◌+◌, ◌*◌, ◌≤◌, ◌++◌, length, leb};
ghost use Rattle.rules.specs.Forms.{event_fields};
ghost use Rattle.lines.specs.Appending.{Appended};
ghost use Rattle.lines.specs.Text.{number_text, hex_text, word_of, line_of, stopped_line, held_of, lines_of};

use events::{
    EVENT_CHANGED, EVENT_CONNECTED, EVENT_DISCONNECTED, EVENT_PRESSED, EVENT_RELEASED,
    EVENT_REPEATED,
};
use rules::{EVENT_AXIS, EVENT_SIZE, EventForm};

pub const SPACE: u8 = b' ';

pub const NEWLINE: u8 = b'\n';
// the most that a number, eight hex digits and an event's line take, each with the byte behind it
const NUMBER_ROOM: usize = 21;

const HEX_ROOM: usize = 9;

const LINE_ROOM: usize = 94;

const STOPPED_ROOM: usize = 50;

// Whether a buffer of this length has that much room from the place on.
fn fits(len: usize, at: usize, room: usize) -> bool
    ensures { result ≡ leb (at + room) len }
{
    at <= len && room <= len - at
}

// Any bytes.
#[tactic(auto, unfolding(crate::specs::Appending::laid_over))]
pub fn append(out: &mut [u8], at: usize, text: &[u8]) -> usize
    ensures { Appended (length text.now) text.now out.old at out.new result }
{
    let size = text.len();
    if !fits(out.len(), at, size) {
        return at;
    }
    out[at..at + size].copy_from_slice(text);
    at + size
}

// A number in decimal, and the byte behind it.
#[tactic(auto, unfolding(crate::specs::Text::number_text))]
pub fn number(out: &mut [u8], at: usize, n: u64, end: u8) -> usize
    ensures { Appended 21 (number_text n end) out.old at out.new result }
{
    if !fits(out.len(), at, NUMBER_ROOM) {
        return at;
    }
    let mut digits = [0u8; 20];
    let count = io::decimal(n, &mut digits);
    let next = append(out, at, &digits[..count]);
    append(out, next, &[end])
}

// Eight hex digits, and the byte behind them.
#[tactic(auto, unfolding(crate::specs::Text::hex_text))]
pub fn hex(out: &mut [u8], at: usize, x: u32, end: u8) -> usize
    ensures { Appended 9 (hex_text x end) out.old at out.new result }
{
    if !fits(out.len(), at, HEX_ROOM) {
        return at;
    }
    let mut digits = [0u8; 16];
    let count = io::hex(x as u64, 8, &mut digits);
    let next = append(out, at, &digits[..count]);
    append(out, next, &[end])
}

// The word of an event's kind.
#[tactic(auto, unfolding(crate::specs::Text::word_of))]
pub fn word(out: &mut [u8], at: usize, kind: u8) -> usize
    ensures { Appended (length (word_of kind)) (word_of kind) out.old at out.new result }
{
    let word: &[u8] = match kind {
        EVENT_PRESSED => b"PRESSED ",
        EVENT_RELEASED => b"RELEASED ",
        EVENT_REPEATED => b"REPEATED ",
        EVENT_CHANGED => b"CHANGED ",
        EVENT_AXIS => b"AXIS ",
        EVENT_CONNECTED => b"CONNECTED ",
        EVENT_DISCONNECTED => b"DISCONNECTED ",
        _ => b"DROPPED ",
    };
    append(out, at, word)
}

// An event's line.
#[tactic(auto, unfolding(crate::specs::Text::line_of))]
pub fn line(out: &mut [u8], at: usize, event: EventForm) -> usize
    ensures { Appended 94 (line_of event) out.old at out.new result }
{
    if !fits(out.len(), at, LINE_ROOM) {
        return at;
    }
    let pad = word(out, at, event.kind);
    let name = number(out, pad, event.pad as u64, SPACE);
    let code = number(out, name, event.name as u64, SPACE);
    let bits = hex(out, code, event.code, SPACE);
    let time = hex(out, bits, event.bits, SPACE);
    number(out, time, event.time, NEWLINE)
}

// A word, a number, and the byte behind it.
pub fn labelled(out: &mut [u8], at: usize, label: &[u8], n: u64, end: u8) -> usize
    ensures { Appended (length label.now + 21) (label.now ++ number_text n end) out.old at out.new result }
{
    if !fits(out.len(), at, label.len() + NUMBER_ROOM) {
        return at;
    }
    let next = append(out, at, label);
    number(out, next, n, end)
}

// "STOPPED, refusal and place"
#[tactic(auto, unfolding(crate::specs::Text::stopped_line))]
pub fn stopped(out: &mut [u8], at: usize, refusal: u8, place: u64) -> usize
    ensures { Appended 50 (stopped_line refusal place) out.old at out.new result }
{
    if !fits(out.len(), at, STOPPED_ROOM) {
        return at;
    }
    let next = labelled(out, at, b"STOPPED ", refusal as u64, SPACE);
    number(out, next, place, NEWLINE)
}

// ---- the events of an out buffer

// The event that a buffer begins with.
#[tactic(auto, unfolding(rules::specs::Forms::event_fields))]
pub fn fields(s: &[u8]) -> EventForm
    requires { 22 ≤ length s.now }
    ensures { result ≡ event_fields s.now }
{
    EventForm {
        kind: s[3],
        pad: s[4],
        name: s[5],
        code: wire::read4(s, 6),
        bits: wire::read4(s, 10),
        time: wire::read8(s, 14),
    }
}

// The lines of the first events of an out buffer, as many as `count` says and the buffer holds.
// By index, which says in the invariant where an event stands; over `chunks_exact` the invariant would have to follow the iterator for it.
#[tactic(auto, unfolding(crate::specs::Text::held_of, crate::specs::Text::lines_of))]
pub fn lines(out: &mut [u8], at: usize, events: &[u8], count: usize) -> usize
    ensures { Appended (94 * held_of events.now count) (lines_of events.now (held_of events.now count)) out.old at out.new result }
{
    let held = count.min(events.len() / EVENT_SIZE);
    if out.len() < at {
        return at;
    }
    if (out.len() - at) / LINE_ROOM < held {
        return at;
    }
    let mut next = at;
    for i in 0..held {
        let event = fields(&events[EVENT_SIZE * i..]);
        next = line(out, next, event);
    }
    next
}
