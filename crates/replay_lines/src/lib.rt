// The lines of what the operations of the oracle's scenario form (`oracle/README.md`) answer. Each function appends to a buffer at a place and answers the next
// place; it prints the pieces of its definition in `specs/Lines.antt`, each where the buffer has room for it, for every answer and every buffer.
#![tactic(auto)]

ghost use Rattle.std.specs.Prelude.{◌≡◌, List, [], ◌∷◌};
ghost use Rattle.rules.specs.Answers.{bit};
ghost use Rattle.lines.specs.Letters.{newline};
ghost use Rattle.replay_words.specs.Pieces.{Piece, written, laid_all, labelled};
ghost use Rattle.replay_lines.specs.Lines as law;
ghost use Rattle.replay_lines.specs.Lines.{Prints, query_pieces, call_pieces};

use lines::{NEWLINE, SPACE};
use numbers::{Tilt, Tilted};
use replay_answers::{Asked, Changed};
use rules::{AxisData, ButtonData, Event, NO_NAME, PadDown, PumpAnswer, Refusal};

// ---- what more than one operation answers

// What is no operation of the form.
fn none(text: &mut [u8], at: usize) -> usize
    ensures { written text.new result ≡ laid_all law.no_operation (written text.old at) }
{
    lines::append(text, at, b"NO OPERATION\n")
}

fn refused(text: &mut [u8], at: usize, refusal: Refusal) -> usize
    ensures { written text.new result ≡ laid_all (law.refused refusal.number) (written text.old at) }
{
    lines::labelled(text, at, b"REFUSED ", refusal.number as u64, NEWLINE)
}

fn absent(text: &mut [u8], at: usize) -> usize
    ensures { written text.new result ≡ laid_all law.absent (written text.old at) }
{
    lines::append(text, at, b"ABSENT\n")
}

fn truth(text: &mut [u8], at: usize, label: &[u8], b: bool) -> usize
    ensures { written text.new result ≡ laid_all (labelled label.now (bit b) newline ∷ []) (written text.old at) }
{
    lines::labelled(text, at, label, replay_words::bit(b), NEWLINE)
}

// ---- the answers of the calls

fn done(text: &mut [u8], at: usize, word: &[u8], answer: Result<(), Refusal>) -> usize
    ensures { written text.new result ≡ laid_all (law.done word.now answer) (written text.old at) }
{
    match answer {
        Ok(()) => lines::append(text, at, word),
        Err(refusal) => refused(text, at, refusal),
    }
}

fn registered(text: &mut [u8], at: usize, answer: Result<u8, Refusal>) -> usize
    ensures { written text.new result ≡ laid_all (law.registered answer) (written text.old at) }
{
    match answer {
        Ok(p) => lines::labelled(text, at, b"PAD ", p as u64, NEWLINE),
        Err(refusal) => refused(text, at, refusal),
    }
}

fn counted(text: &mut [u8], at: usize, counter: u64) -> usize
    ensures { written text.new result ≡ laid_all (law.counted counter) (written text.old at) }
{
    lines::labelled(text, at, b"COUNTER ", counter, NEWLINE)
}

// The place, the events written and the steps of a pump.
fn stopped(text: &mut [u8], at: usize, place: usize, count: usize, steps: usize) -> usize
    ensures { written text.new result ≡ laid_all (law.counts place count steps) (written text.old at) }
{
    let events = lines::number(text, at, place as u64, SPACE);
    let made = lines::number(text, events, count as u64, SPACE);
    lines::number(text, made, steps as u64, NEWLINE)
}

// Each event of the out buffer, then how the pump ended.
fn ended(
    text: &mut [u8],
    at: usize,
    out: &[u8],
    word: &[u8],
    place: usize,
    count: usize,
    steps: usize,
) -> usize
    ensures { written text.new result
        ≡ laid_all (law.ended out.now word.now place count steps) (written text.old at) }
{
    let last = lines::lines(text, at, out, count);
    let next = lines::append(text, last, word);
    stopped(text, next, place, count, steps)
}

fn pumped(text: &mut [u8], at: usize, out: &[u8], answer: PumpAnswer) -> usize
    ensures { written text.new result ≡ laid_all (law.pumped out.now answer) (written text.old at) }
{
    match answer {
        PumpAnswer::Drained(place, count, steps) => {
            ended(text, at, out, b"DRAINED ", place, count, steps)
        }
        PumpAnswer::Full(place, count, steps) => {
            ended(text, at, out, b"FULL ", place, count, steps)
        }
        PumpAnswer::Paused(place, count, steps) => {
            ended(text, at, out, b"PAUSED ", place, count, steps)
        }
        PumpAnswer::Refused(number, place, count, steps) => {
            let last = lines::lines(text, at, out, count);
            let next = lines::labelled(text, last, b"REFUSED ", number as u64, SPACE);
            stopped(text, next, place, count, steps)
        }
    }
}

// A pump's lines, then its report, whatever the answer.
fn reported(text: &mut [u8], at: usize, out: &[u8], answer: PumpAnswer, tilt: Tilt) -> usize
    ensures { written text.new result ≡ laid_all (law.reported out.now answer tilt) (written text.old at) }
{
    let last = pumped(text, at, out, answer);
    let next = lines::append(text, last, b"TILT ");
    replay_words::tilt_word(text, next, tilt)
}

fn repeated(text: &mut [u8], at: usize, answer: Result<Option<Event>, Refusal>) -> usize
    ensures { written text.new result ≡ laid_all (law.repeated answer) (written text.old at) }
{
    match answer {
        Ok(Some(e)) => lines::line(text, at, events::form_of(e)),
        Ok(None) => lines::append(text, at, b"NONE\n"),
        Err(refusal) => refused(text, at, refusal),
    }
}

// ---- the answers of the queries

fn is(text: &mut [u8], at: usize, label: &[u8], answer: Result<bool, Refusal>) -> usize
    ensures { written text.new result ≡ laid_all (law.truth label.now answer) (written text.old at) }
{
    match answer {
        Ok(b) => truth(text, at, label, b),
        Err(refusal) => refused(text, at, refusal),
    }
}

// A float, by its bits.
fn bits_line(text: &mut [u8], at: usize, label: &[u8], v: f32) -> usize
    ensures { written text.new result ≡ laid_all (law.bits_line label.now v) (written text.old at) }
{
    let next = lines::append(text, at, label);
    lines::hex(text, next, binary32::bits_of(v), NEWLINE)
}

fn value_line(text: &mut [u8], at: usize, v: f32) -> usize
    ensures { written text.new result ≡ laid_all (law.value_line v) (written text.old at) }
{
    bits_line(text, at, b"VALUE ", v)
}

fn threshold_line(text: &mut [u8], at: usize, v: f32) -> usize
    ensures { written text.new result ≡ laid_all (law.threshold_line v) (written text.old at) }
{
    bits_line(text, at, b"THRESHOLD ", v)
}

fn button_line(text: &mut [u8], at: usize, b: ButtonData) -> usize
    ensures { written text.new result ≡ laid_all (law.button_line b) (written text.old at) }
{
    let next = lines::append(text, at, b"BUTTON ");
    replay_words::button_words(text, next, b)
}

fn since_line(text: &mut [u8], at: usize, b: ButtonData) -> usize
    ensures { written text.new result ≡ laid_all (law.since_line b) (written text.old at) }
{
    lines::labelled(text, at, b"SINCE ", b.since, NEWLINE)
}

fn stick_line(text: &mut [u8], at: usize, a: AxisData) -> usize
    ensures { written text.new result ≡ laid_all (law.stick_line a) (written text.old at) }
{
    let next = lines::append(text, at, b"STICK ");
    replay_words::axis_words(text, next, a)
}

fn code_line(text: &mut [u8], at: usize, code: u32) -> usize
    ensures { written text.new result ≡ laid_all (law.code_line code) (written text.old at) }
{
    let next = lines::append(text, at, b"CODE ");
    lines::hex(text, next, code, NEWLINE)
}

// What may be absent: where it is there, its own line.
fn found<T, F: FnOnce(&mut [u8], usize, T) -> usize>(
    text: &mut [u8],
    at: usize,
    answer: Result<Option<T>, Refusal>,
    line: F,
) -> usize
    requires { F.IsAlwaysCallable line }
    ensures { (pieces : T → List Piece) → Prints F.FnOnce line pieces →
        written text.new result ≡ laid_all (law.found pieces answer) (written text.old at) }
{
    match answer {
        Ok(Some(x)) => line(text, at, x),
        Ok(None) => absent(text, at),
        Err(refusal) => refused(text, at, refusal),
    }
}

// 255 where the code has no name.
fn name(text: &mut [u8], at: usize, answer: Result<Option<u32>, Refusal>) -> usize
    ensures { written text.new result ≡ laid_all (law.named answer) (written text.old at) }
{
    match answer {
        Ok(Some(n)) => lines::labelled(text, at, b"NAME ", n as u64, NEWLINE),
        Ok(None) => lines::labelled(text, at, b"NAME ", NO_NAME as u64, NEWLINE),
        Err(refusal) => refused(text, at, refusal),
    }
}

// How many button records of a pad are pressed, and whether an axis element's is.
fn down(text: &mut [u8], at: usize, answer: Result<PadDown, Refusal>) -> usize
    ensures { written text.new result ≡ laid_all (law.down answer) (written text.old at) }
{
    match answer {
        Ok(down) => {
            let next = lines::labelled(text, at, b"DOWN ", down.count as u64, SPACE);
            lines::number(text, next, replay_words::bit(down.axis), NEWLINE)
        }
        Err(refusal) => refused(text, at, refusal),
    }
}

// ---- the deadzone calculation

// The pair's bits, and which of the three it was.
fn pair(text: &mut [u8], at: usize, tilted: Tilted) -> usize
    ensures { written text.new result ≡ laid_all (law.pair tilted) (written text.old at) }
{
    let x = lines::append(text, at, b"PAIR ");
    let y = lines::hex(text, x, binary32::bits_of(tilted.pair.x), SPACE);
    let word = lines::hex(text, y, binary32::bits_of(tilted.pair.y), SPACE);
    replay_words::tilt_word(text, word, tilted.tilt)
}

// ---- the lines of any operation

// The line of an operation that leaves the hub as it is.
#[tactic(auto, unfolding(crate::specs::Lines::query_pieces))]
pub fn query_line(text: &mut [u8], at: usize, answer: Asked) -> usize
    ensures { written text.new result ≡ laid_all (query_pieces answer) (written text.old at) }
{
    match answer {
        Asked::Truth(a) => is(text, at, b"IS ", a),
        Asked::Value(a) => found(text, at, a, value_line),
        Asked::Threshold(a) => found(text, at, a, threshold_line),
        Asked::Button(a) => found(text, at, a, button_line),
        Asked::Axis(a) => found(text, at, a, stick_line),
        Asked::Name(a) => name(text, at, a),
        Asked::Code(a) => found(text, at, a, code_line),
        Asked::Stands(a) => is(text, at, b"STANDS ", a),
        Asked::Repeat(a) => repeated(text, at, a),
        Asked::Waiting(n) => lines::labelled(text, at, b"WAITING ", n as u64, NEWLINE),
        Asked::Counter(n) => counted(text, at, n),
        Asked::Since(a) => found(text, at, a, since_line),
        Asked::Pair(t) => pair(text, at, t),
        Asked::Down(a) => down(text, at, a),
        Asked::Nothing => none(text, at),
    }
}

// The lines of an operation that changes it; the events of a pump stand in the out buffer.
#[tactic(auto, unfolding(crate::specs::Lines::call_pieces))]
pub fn call_lines(text: &mut [u8], at: usize, out: &[u8], answer: Changed) -> usize
    ensures { written text.new result ≡ laid_all (call_pieces out.now answer) (written text.old at) }
{
    match answer {
        Changed::Begun(a) => done(text, at, b"HUB\n", a),
        Changed::Registered(a) => registered(text, at, a),
        Changed::Renamed(a) => done(text, at, b"RENAMED\n", a),
        Changed::Pumped(a) => pumped(text, at, out, a),
        Changed::Reported(a, t) => reported(text, at, out, a, t),
        Changed::Updated(a) => done(text, at, b"UPDATED\n", a),
        Changed::Inserted(a) => done(text, at, b"INSERTED\n", a),
        Changed::Counter(n) => counted(text, at, n),
        Changed::Nothing => none(text, at),
    }
}
