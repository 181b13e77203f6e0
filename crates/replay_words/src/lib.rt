// The words of a pad's records, which replay's lines and its dump print, and of a tilt (`oracle/README.md`). Each function appends to a buffer at a place and
// answers the next place; it prints the pieces of its definition in `specs/Words.antt`, each where the buffer has room for it.
#![tactic(auto)]

ghost use Rattle.std.specs.Prelude.{◌≡◌};
ghost use Rattle.rules.specs.Answers.{bit as bit_of};
ghost use Rattle.replay_words.specs.Pieces.{written, laid_all};
ghost use Rattle.replay_words.specs.Words.{button_pieces, axis_pieces, tilt_pieces};

use lines::{NEWLINE, SPACE};
use numbers::Tilt;
use rules::{AxisData, ButtonData};

// A mark as a digit's number.
pub fn bit(b: bool) -> u64
    ensures { result ≡ bit_of b }
{
    u64::from(b)
}

// ---- records

// A button record's words: value, pressed, repeating, counter, stamp.
#[tactic(auto, unfolding(crate::specs::Words::button_pieces))]
pub fn button_words(text: &mut [u8], at: usize, b: ButtonData) -> usize
    ensures { written text.new result ≡ laid_all (button_pieces b) (written text.old at) }
{
    let pressed = lines::hex(text, at, binary32::bits_of(b.value), SPACE);
    let repeating = lines::number(text, pressed, bit(b.pressed), SPACE);
    let counter = lines::number(text, repeating, bit(b.repeating), SPACE);
    let stamp = lines::number(text, counter, b.counter, SPACE);
    lines::number(text, stamp, b.stamp, NEWLINE)
}

// An axis record's words: value, counter, stamp.
#[tactic(auto, unfolding(crate::specs::Words::axis_pieces))]
pub fn axis_words(text: &mut [u8], at: usize, a: AxisData) -> usize
    ensures { written text.new result ≡ laid_all (axis_pieces a) (written text.old at) }
{
    let counter = lines::hex(text, at, binary32::bits_of(a.value), SPACE);
    let stamp = lines::number(text, counter, a.counter, SPACE);
    lines::number(text, stamp, a.stamp, NEWLINE)
}

// ---- a tilt

// Its word, at a line's end: NONE where no threshold was met.
pub fn tilt_word(text: &mut [u8], at: usize, tilt: Tilt) -> usize
    ensures { written text.new result ≡ laid_all (tilt_pieces tilt) (written text.old at) }
{
    match tilt {
        Tilt::Unmet => lines::append(text, at, b"NONE\n"),
        Tilt::Inside => lines::append(text, at, b"INSIDE\n"),
        Tilt::Between => lines::append(text, at, b"BETWEEN\n"),
        Tilt::Full => lines::append(text, at, b"FULL\n"),
    }
}
