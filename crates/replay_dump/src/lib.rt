// The dump of the oracle's scenario form (`oracle/README.md`): everything that the pads' state holds, of a hub that is lent. Each function appends to a text at
// a place and answers the next place; it prints the pieces of its definition in `specs/Dump.antt`, each where the text has room for it, whatever the hub holds.
#![tactic(auto)]

ghost use Rattle.std.specs.Prelude.{◌≡◌, List, ℕ, ◌+◌, ◌*◌, ◌<◌};
ghost use Rattle.rules.specs.Names.{pad_limit, places_per_pad};
ghost use Rattle.columns.specs.Columns.{buttons_of, axes_of};
ghost use Rattle.hub.specs.Lent.{Listed, Columns, listed, columns, hub_of};
ghost use Rattle.replay_words.specs.Pieces.{written, laid_all};
ghost use Rattle.replay_dump.specs.Dump as law;
ghost use Rattle.replay_dump.specs.Dump.{dump_pieces};

use columns::{Marks, Times, Values};
use hub::Head;
use lines::{NEWLINE, SPACE};
use rules::{AxisData, ButtonData, FLAGS_PER_PAD, PADS, PLACES_PER_PAD};

// The i-th place of a pad.
fn place(p: u8, i: usize) -> usize
    requires { (p < pad_limit) × (i < places_per_pad) }
    ensures { result ≡ places_per_pad * p + i }
{
    PLACES_PER_PAD * p as usize + i
}

#[tactic(auto, unfolding(replay_words::specs::Pieces::laid_all))]
fn button(text: &mut [u8], at: usize, known: bool, code: u32, b: ButtonData) -> usize
    ensures { written text.new result ≡ laid_all (law.button_line known code b) (written text.old at) }
{
    if !known {
        return at;
    }
    let next = lines::append(text, at, b"B ");
    let words = lines::hex(text, next, code, SPACE);
    replay_words::button_words(text, words, b)
}

#[tactic(auto, unfolding(replay_words::specs::Pieces::laid_all))]
fn stick(text: &mut [u8], at: usize, known: bool, code: u32, a: AxisData) -> usize
    ensures { written text.new result ≡ laid_all (law.stick_line known code a) (written text.old at) }
{
    if !known {
        return at;
    }
    let next = lines::append(text, at, b"A ");
    let words = lines::hex(text, next, code, SPACE);
    replay_words::axis_words(text, words, a)
}

// `buttons` and `sticks` stay two loops: one over a closure would have to say at which places it may be called and what a call prints, which is no plainer.

// A pad's button records, codes rising.
#[tactic(auto, unfolding(crate::specs::Dump::up_to, replay_words::specs::Pieces::laid_all))]
fn buttons(
    codes: &[u32; 208],
    hasbutton: &[bool; 208],
    values: &Values,
    times: &Times,
    marks: &Marks,
    text: &mut [u8],
    at: usize,
    p: u8,
) -> usize
    requires { p < pad_limit }
    ensures { written text.new result
        ≡ laid_all (law.button_lines codes.now hasbutton.now
        (buttons_of values.now times.now marks.now) p places_per_pad)
        (written text.old at) }
{
    let mut next = at;
    for i in 0..PLACES_PER_PAD {
        let k = place(p, i);
        let b = columns::button_at(values, times, marks, k);
        next = button(
            text,
            next,
            pad::bool_at(hasbutton, k),
            pad::code_at(codes, k),
            b,
        );
    }
    next
}

// A pad's axis records, codes rising.
#[tactic(auto, unfolding(crate::specs::Dump::up_to, replay_words::specs::Pieces::laid_all))]
fn sticks(
    codes: &[u32; 208],
    hasaxis: &[bool; 208],
    values: &Values,
    times: &Times,
    text: &mut [u8],
    at: usize,
    p: u8,
) -> usize
    requires { p < pad_limit }
    ensures { written text.new result
        ≡ laid_all (law.stick_lines codes.now hasaxis.now (axes_of values.now times.now) p places_per_pad)
        (written text.old at) }
{
    let mut next = at;
    for i in 0..PLACES_PER_PAD {
        let k = place(p, i);
        let a = columns::axis_at(values, times, k);
        next = stick(
            text,
            next,
            pad::bool_at(hasaxis, k),
            pad::code_at(codes, k),
            a,
        );
    }
    next
}

fn digit(b: bool) -> u8
    ensures { result ≡ law.digit b }
{
    if b { b'1' } else { b'0' }
}

// The deadzone flags: DPadX, DPadY, LeftStickX, LeftStickY, RightStickX, RightStickY.
#[tactic(auto, unfolding(crate::specs::Dump::up_to, replay_words::specs::Pieces::laid_all))]
fn flags(flags: &[bool; 24], text: &mut [u8], at: usize, p: u8) -> usize
    ensures { written text.new result ≡ laid_all (law.flags_line flags.now p) (written text.old at) }
{
    let start = FLAGS_PER_PAD * p as usize;
    let mut next = lines::append(text, at, b"FLAGS ");
    for i in 0..FLAGS_PER_PAD {
        next = lines::append(text, next, &[digit(pad::flag_at(flags, start + i))]);
    }
    lines::append(text, next, b"\n")
}

// A pad's first line: its number, whether it is connected, and its hats.
#[tactic(auto, unfolding(crate::specs::Dump::first_line))]
fn first_line(head: Head, text: &mut [u8], at: usize, p: u8) -> usize
    ensures { (s : Listed) (t : Columns) →
        written text.new result ≡ laid_all (law.first_line (hub_of head s t) p) (written text.old at) }
{
    let connected = lines::labelled(text, at, b"DUMP ", p as u64, SPACE);
    let stands = replay_words::bit(pad::pad_bool(&head.connected, p));
    let end = lines::number(text, connected, stands, SPACE);
    lines::number(text, end, queries::hats_now(head, p) as u64, NEWLINE)
}

// A pad's lines; none for one that is not registered.
#[tactic(auto, unfolding(crate::specs::Dump::pad_lines, replay_words::specs::Pieces::laid_all))]
fn pad_lines(
    head: Head,
    codes: &[u32; 208],
    hasbutton: &[bool; 208],
    hasaxis: &[bool; 208],
    values: &Values,
    times: &Times,
    marks: &Marks,
    text: &mut [u8],
    at: usize,
    p: u8,
) -> usize
    requires { p < pad_limit }
    ensures { (kinds names renames queuebytes queuecodes : List ℕ) →
        written text.new result ≡ laid_all (law.pad_lines (hub_of head (listed codes.now kinds names renames)
        (columns hasbutton.now hasaxis.now values.now times.now marks.now queuebytes queuecodes))
        p) (written text.old at) }
{
    if head.pads <= p {
        return at;
    }
    let first = first_line(head, text, at, p);
    let axes = buttons(codes, hasbutton, values, times, marks, text, first, p);
    let last = sticks(codes, hasaxis, values, times, text, axes, p);
    flags(&head.flags, text, last, p)
}

fn last(text: &mut [u8], at: usize, counter: u64, waiting: u8) -> usize
    ensures { written text.new result ≡ laid_all (law.last_line counter waiting) (written text.old at) }
{
    let end = lines::labelled(text, at, b"END ", counter, SPACE);
    lines::number(text, end, waiting as u64, NEWLINE)
}

// The lines of all that the pads' state holds.
#[tactic(auto, unfolding(crate::specs::Dump::up_to, replay_words::specs::Pieces::laid_all, crate::specs::Dump::dump_pieces))]
pub fn dump(
    head: Head,
    codes: &[u32; 208],
    hasbutton: &[bool; 208],
    hasaxis: &[bool; 208],
    values: &Values,
    times: &Times,
    marks: &Marks,
    text: &mut [u8],
    at: usize,
) -> usize
    ensures { (kinds names renames queuebytes queuecodes : List ℕ) →
        written text.new result ≡ laid_all (dump_pieces (hub_of head (listed codes.now kinds names renames)
        (columns hasbutton.now hasaxis.now values.now times.now marks.now queuebytes queuecodes)))
        (written text.old at) }
{
    let mut next = at;
    for p in 0..PADS {
        next = pad_lines(
            head, codes, hasbutton, hasaxis, values, times, marks, text, next, p,
        );
    }
    last(text, next, head.counter, head.waiting)
}
