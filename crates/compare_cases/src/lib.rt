// What the stored lists are made of: words of four bytes, the highest first. A case of the list of decisions has 26 of them, with events of four words among
// them.
#![tactic(auto)]

ghost use Rattle.std.specs.Prelude.{◌≡◌, cond, not, ◌||◌, ◌+◌, ◌*◌, ◌≤◌, ◌<◌, length, true, IsTrue, IfOk};
ghost use Rattle.std.specs.Fn.{FnReturnsAt};
ghost use Rattle.rules.specs.Forms.{signed_of};
ghost use Rattle.rules.specs.Events.{slot_of};
ghost use Rattle.compare_cases.specs.Case.{word_of, float_of, mark_of, element_of, event_in, same_of};
ghost use Rattle.compare_cases.specs.Played.{OneRight, AllRight};

use rules::{Element, Event, Slot};
use std::io;
use std::io::Read;

pub const SIZE: usize = 104;

// the words of the event given, of the one that came out, and of those queued behind it
pub const GIVEN: usize = 6;

pub const OUT: usize = 10;

pub const QUEUED: usize = 14;

// ---- words and marks

// The n-th word.
pub fn word(words: &[u8], n: usize) -> u32
    requires { n * 4 + 4 ≤ length words.now }
    ensures { result ≡ word_of words.now n }
{
    wire::read4(words, n * 4)
}

// The n-th word, where a function takes 64 bits.
pub fn long(words: &[u8], n: usize) -> u64
    requires { n * 4 + 4 ≤ length words.now }
    ensures { result ≡ word_of words.now n }
{
    u64::from(word(words, n))
}

// The n-th word as the bits of a binary32 number.
pub fn value(words: &[u8], n: usize) -> f32
    requires { n * 4 + 4 ≤ length words.now }
    ensures { result ≡ float_of words.now n }
{
    binary32::of_bits(word(words, n))
}

// The n-th word as a signed number.
pub fn whole(words: &[u8], n: usize) -> i32
    requires { n * 4 + 4 ≤ length words.now }
    ensures { result ≡ signed_of (word_of words.now n) }
{
    wire::signed4(words, n * 4)
}

// the mark of this weight in a byte of marks
pub fn mark(marks: u8, weight: u8) -> bool
    requires { 0 < weight }
    ensures { result ≡ mark_of marks weight }
{
    marks / weight % 2 == 1
}

// Whether two truths are the same.
pub fn agree(a: bool, b: bool) -> bool
    ensures { result ≡ cond a b (not b) }
{
    a == b
}

// ---- elements

// What an axis element keeps of its min and max: nothing of numbers outside 01's limits. No list has a deadzone for it.
pub fn element(min: i32, max: i32) -> Element
    ensures { result ≡ element_of min max }
{
    if scale::within(min) && scale::within(max) {
        Element {
            low: scale::low_of(min),
            range: scale::range_of(min, max),
            odd: scale::odd_of(min, max),
            threshold: 0.0,
        }
    } else {
        Element {
            low: 0.0,
            range: 0.0,
            odd: false,
            threshold: 0.0,
        }
    }
}

// ---- events: four words

// The event at the four words from n on.
pub fn event(case: &[u8; 104], n: usize) -> Event
    requires { n + 4 ≤ 26 }
    ensures { result ≡ event_in case.now n }
{
    let at = n * 4;
    events::event_of(Slot {
        kind: case[at],
        pad: case[at + 1],
        name: case[at + 2],
        code: word(case, n + 1),
        value: value(case, n + 2),
        time: long(case, n + 3),
    })
}

// Whether an event is the one at these words, its value bit for bit, as `==` of two numbers would not have it: -0.0 is not 0.0, and a NaN is a NaN.
pub fn same(e: Event, case: &[u8; 104], n: usize) -> bool
    requires { n + 4 ≤ 26 }
    ensures { result ≡ same_of (slot_of e) case.now n }
{
    let s = events::slot_of(e);
    let at = n * 4;
    s.kind == case[at]
        && s.pad == case[at + 1]
        && s.name == case[at + 2]
        && s.code == word(case, n + 1)
        && binary32::bits_of(s.value) == word(case, n + 2)
        && s.time == long(case, n + 3)
}

// An event that is queued is the one at these words.
pub fn waits(queued: bool, e: Event, case: &[u8; 104], n: usize) -> bool
    requires { n + 4 ≤ 26 }
    ensures { result ≡ (not queued || same_of (slot_of e) case.now n) }
{
    !queued || same(e, case, n)
}

// ---- a list

// Whether the next record, of so many words, is there and comes out right.
fn comes_right<R: Read, F: Fn(&[u8; 104]) -> bool>(
    input: &mut R,
    words: usize,
    right: &F,
) -> io::Result<bool>
    requires size { words ≤ 26 }
    requires callable { F.IsAlwaysCallable right.now }
    ensures { IfOk result (λ good. IsTrue good
        → OneRight R.remaining (λ bytes. FnReturnsAt F.Fn right.now bytes true) (words * 4) input.old input.new) }
{
    let mut record = [0; SIZE];
    Ok(reading::came(input, &mut record[..words * 4])? && right(&record))
}

// How many of so many records, each of so many words, do not come out right, or are cut short. A record has the room of a case: its size cannot be a const
// parameter, which a bound `Fn` may not name.
pub fn faults<R: Read, F: Fn(&[u8; 104]) -> bool>(
    input: &mut R,
    records: u64,
    words: usize,
    right: F,
) -> io::Result<u64>
    requires size { words ≤ 26 }
    requires callable { F.IsAlwaysCallable right }
    ensures few { IfOk result (λ wrong. wrong ≤ records) }
    ensures all { IfOk result (λ wrong. wrong ≡ 0
        → AllRight R.remaining (λ bytes. FnReturnsAt F.Fn right bytes true) (words * 4) input.old input.new records) }
{
    let mut wrong = 0;
    for n in 0..records {
        if !comes_right(input, words, &right)? {
            wrong += 1;
        }
    }
    Ok(wrong)
}
