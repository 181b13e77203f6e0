// A pad's 52 places: where a code or a name stands, whether a pad converts, and the columns read and marked at any index. Every function takes any
// column and any number, and answers what its definition in the law book says.
#![tactic(auto)]

ghost use Rattle.std.specs.Prelude.{◌≡◌, true, false, ◌+◌, ◌/◌, ◌≤◌, ◌<◌, get_or, set};
ghost use Rattle.rules.specs.Names.{no_name, places_per_pad, nowhere};
ghost use Rattle.rules.specs.Zones.{middle_zone};
ghost use Rattle.rules.specs.Places.{code_named, direction_named, converts_of, cleared_of};
ghost use Rattle.pad.specs.Found.{Placed, Named, Halved, Sought, Scanned, Early};

use rules::{LAST_HATS, MIDDLE_ZONE, NO_NAME, NOWHERE, PADS, PLACES_PER_PAD};

// How many places of a pad are looked at together for a name.
const EARLY: usize = 16;

// ---- the place of a code

// The halving search of the law book, written out and no loop over a number of places: where the number is known, so is how far the middle lies from their
// start. An even number has one place fewer behind the middle than before it; of an odd number, either half is as long.

// Of `half` places, a middle and `half` places: where the half starts in which the search goes on.
#[tactic(auto, using(crate::proofs::Halving::halved))]
fn half_of(codes: &[u32; 208], start: usize, half: usize, code: u32) -> usize
    requires { (half < places_per_pad / 2) × (start + (half + half + 1) ≤ nowhere) }
    ensures { Halved codes.now start half code result }
{
    let middle = start + half;
    if codes[middle] < code {
        middle + 1
    } else {
        start
    }
}

fn seek_two(codes: &[u32; 208], start: usize, code: u32) -> usize
    requires { start + 2 ≤ nowhere }
    ensures { Sought codes.now start 2 code result }
{
    if codes[start + 1] < code {
        start + 2
    } else {
        half_of(codes, start, 0, code)
    }
}

fn seek_six(codes: &[u32; 208], start: usize, code: u32) -> usize
    requires { start + 6 ≤ nowhere }
    ensures { Sought codes.now start 6 code result }
{
    if codes[start + 3] < code {
        seek_two(codes, start + 4, code)
    } else {
        let one = half_of(codes, start, 1, code);
        half_of(codes, one, 0, code)
    }
}

fn seek_twelve(codes: &[u32; 208], start: usize, code: u32) -> usize
    requires { start + 12 ≤ nowhere }
    ensures { Sought codes.now start 12 code result }
{
    if codes[start + 6] < code {
        let two = half_of(codes, start + 7, 2, code);
        seek_two(codes, two, code)
    } else {
        seek_six(codes, start, code)
    }
}

// On codes that do not fall, the first of a pad's 52 places whose code is not below the one asked for.
fn seek(codes: &[u32; 208], start: usize, code: u32) -> usize
    requires { start + places_per_pad ≤ nowhere }
    ensures { Sought codes.now start places_per_pad code result }
{
    if codes[start + 26] < code {
        let twelve = half_of(codes, start + 27, 12, code);
        seek_twelve(codes, twelve, code)
    } else if codes[start + 13] < code {
        seek_twelve(codes, start + 14, code)
    } else {
        let six = half_of(codes, start, 6, code);
        seek_six(codes, six, code)
    }
}

// The place of a code: one of the pad's that has it, or `NOWHERE`.
pub fn place_of(codes: &[u32; 208], pad: u8, code: u32) -> usize
    ensures { Placed codes.now pad code result }
{
    if PADS <= pad {
        return NOWHERE;
    }
    let start = PLACES_PER_PAD * pad as usize;
    let place = seek(codes, start, code);
    if place < start + PLACES_PER_PAD && codes[place] == code {
        place
    } else {
        NOWHERE
    }
}

// ---- the place of a name

// The first of the places from a start on that has the name, or `NOWHERE`.
fn scan(names: &[u8; 208], start: usize, n: usize, name: u8) -> usize
    requires { start + n ≤ nowhere }
    ensures { Scanned names.now start n name result }
{
    for place in start..start + n {
        if names[place] == name {
            return place;
        }
    }
    NOWHERE
}

// Whether one of the sixteen places from a start on has the name. None is passed over, so that the machine compares all sixteen at once.
fn stands_early(names: &[u8; 208], start: usize, name: u8) -> bool
    requires { start + places_per_pad ≤ nowhere }
    ensures { Early names.now start name result }
{
    let mut found = false;
    for i in 0..EARLY {
        found |= names[start + i] == name;
    }
    found
}

// The place of a name: the first of the pad's that has it, or `NOWHERE`. An axis most often stands behind sixteen others.
#[tactic(auto, unfolding(rules::specs::Places::named_of))]
pub fn named(names: &[u8; 208], pad: u8, name: u8) -> usize
    ensures { Named names.now pad name result }
{
    if PADS <= pad {
        return NOWHERE;
    }
    let start = PLACES_PER_PAD * pad as usize;
    if stands_early(names, start, name) {
        scan(names, start, PLACES_PER_PAD, name)
    } else {
        scan(names, start + EARLY, PLACES_PER_PAD - EARLY, name)
    }
}

// ---- columns read at any index

// Columns are arrays of 208, 24, 8 or 4, each asked for by a name that says which it is. Each is lent on as a slice to one of these two, so that a column of any kind and length is read and stored to by one
// proof.

// What stands at an index of a column; `none` past the end.
pub fn read<T: Copy>(column: &[T], at: usize, none: T) -> T
    ensures { result ≡ get_or column.now at none }
{
    column.get(at).copied().unwrap_or(none)
}

// The mark of a place; false past the end.
pub fn bool_at(marks: &[bool; 208], place: usize) -> bool
    ensures { result ≡ get_or marks.now place false }
{
    read(marks, place, false)
}

// The kind of the element at a place; 0 where the sheet lists none.
pub fn kind_at(kinds: &[u8; 208], place: usize) -> u8
    ensures { result ≡ get_or kinds.now place 0 }
{
    read(kinds, place, 0)
}

// The name of a place; `NO_NAME` where it has none.
pub fn name_at(names: &[u8; 208], place: usize) -> u8
    ensures { result ≡ get_or names.now place no_name }
{
    read(names, place, NO_NAME)
}

// The code of a place; 0 past the end.
pub fn code_at(codes: &[u32; 208], place: usize) -> u32
    ensures { result ≡ get_or codes.now place 0 }
{
    read(codes, place, 0)
}

// A deadzone flag; false past the end.
pub fn flag_at(flags: &[bool; 24], at: usize) -> bool
    ensures { result ≡ get_or flags.now at false }
{
    read(flags, at, false)
}

// The zone of a hat's last converted value; the middle past the end.
pub fn zone_at(zones: &[u8; 8], at: usize) -> u8
    ensures { result ≡ get_or zones.now at middle_zone }
{
    read(zones, at, MIDDLE_ZONE)
}

// A pad's mark; false for a pad that is none.
pub fn pad_bool(marks: &[bool; 4], pad: u8) -> bool
    ensures { result ≡ get_or marks.now pad false }
{
    read(marks, pad as usize, false)
}

// A pad's number; 0 for a pad that is none.
pub fn pad_number(numbers: &[u8; 4], pad: u8) -> u8
    ensures { result ≡ get_or numbers.now pad 0 }
{
    read(numbers, pad as usize, 0)
}

// ---- columns marked at any index: past the end nothing happens

// Sets what stands at an index of a column.
pub fn store<T: Copy>(column: &mut [T], at: usize, value: T)
    ensures { column.new ≡ set column.old at value }
{
    if at < column.len() {
        column[at] = value;
    }
}

// Sets the mark of a place; past the end nothing changes.
pub fn mark(marks: &mut [bool; 208], place: usize, v: bool)
    ensures { marks.new ≡ set marks.old place v }
{
    store(marks, place, v)
}

// Sets a deadzone flag; past the end nothing changes.
pub fn mark_flag(flags: &mut [bool; 24], at: usize, v: bool)
    ensures { flags.new ≡ set flags.old at v }
{
    store(flags, at, v)
}

// Sets a pad's mark; past the end nothing changes.
pub fn mark_pad(marks: &mut [bool; 4], pad: u8, v: bool)
    ensures { marks.new ≡ set marks.old pad v }
{
    store(marks, pad as usize, v)
}

// Sets the zone of a hat's last converted value; past the end nothing changes.
pub fn set_zone(zones: &mut [u8; 8], at: usize, v: u8)
    ensures { zones.new ≡ set zones.old at v }
{
    store(zones, at, v)
}

// Sets a pad's number; past the end nothing changes.
pub fn set_pad(numbers: &mut [u8; 4], pad: u8, v: u8)
    ensures { numbers.new ≡ set numbers.old pad v }
{
    store(numbers, pad as usize, v)
}

// The n marks from start on are taken off, as far as there are any.
fn clear_in(marks: &mut [bool], start: usize, n: usize)
    ensures { marks.new ≡ cleared_of marks.old start n }
{
    if start < marks.len() {
        let end = start + n.min(marks.len() - start);
        for mark in &mut marks[start..end] {
            *mark = false;
        }
    }
}

// Takes n marks off from a place on.
pub fn clear(marks: &mut [bool; 208], start: usize, n: usize)
    ensures { marks.new ≡ cleared_of marks.old start n }
{
    clear_in(marks, start, n)
}

// Takes n deadzone flags down from one on.
pub fn clear_flags(flags: &mut [bool; 24], start: usize, n: usize)
    ensures { flags.new ≡ cleared_of flags.old start n }
{
    clear_in(flags, start, n)
}

// ---- "A pad converts if hats is 15, or hats is 0 and no direction code is named and no element is named DPadRight"

#[tactic(auto, unfolding(rules::specs::Places::code_named))]
fn code_named<'a>(codes: &'a [u32; 208], names: &'a [u8; 208], pad: u8, code: u32) -> bool
    ensures { result ≡ code_named codes.now names.now pad code }
{
    let place = place_of(codes, pad, code);
    name_at(names, place) != NO_NAME
}

#[tactic(auto, unfolding(rules::specs::Places::direction_named))]
fn direction_named<'a>(codes: &'a [u32; 208], names: &'a [u8; 208], pad: u8) -> bool
    ensures { result ≡ direction_named codes.now names.now pad }
{
    code_named(codes, names, pad, names::CODE_RIGHT)
        || code_named(codes, names, pad, names::CODE_LEFT)
        || code_named(codes, names, pad, names::CODE_DOWN)
        || code_named(codes, names, pad, names::CODE_UP)
}

// Whether a pad's hats turn into directions: hats say all four, or say none and no direction is named.
#[tactic(auto, using(std::proofs::Common::ne_eqb), unfolding(rules::specs::Places::converts_of))]
pub fn converts<'a>(hats: u8, codes: &'a [u32; 208], names: &'a [u8; 208], pad: u8) -> bool
    ensures { result ≡ converts_of hats codes.now names.now pad }
{
    match hats {
        LAST_HATS => true,
        0 => !direction_named(codes, names, pad) && named(names, pad, names::DPAD_RIGHT) == NOWHERE,
        _ => false,
    }
}
