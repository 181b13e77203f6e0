// Repeat: gilrs's `Repeat`, with the clock as input. Whether a record is due, the event that it gives, and the scan of a pad's records for the first due one.
#![tactic(auto)]

ghost use Rattle.std.specs.Prelude.{◌≡◌, true, position};
ghost use Rattle.rules.specs.Repeat.{wait_of, due_of, repeated_of};
ghost use Rattle.repeat.specs.Run.{first_of};

use rules::{ButtonData, Event, EventType, PLACES_PER_PAD};

// `after` for the first repeat, `every` from then on
#[tactic(auto, unfolding(rules::specs::Repeat::wait_of))]
fn wait(b: ButtonData, after: u64, every: u64) -> u64
    ensures { result ≡ wait_of b after every }
{
    if b.repeating { every } else { after }
}

// "A stamp later than now is not due"
#[tactic(auto, unfolding(rules::specs::Repeat::due_of))]
pub fn due(b: ButtonData, known: bool, after: u64, every: u64, clock: u64) -> bool
    ensures { result ≡ due_of known b after every clock }
{
    known && b.pressed && b.stamp <= clock && wait(b, after, every) <= clock - b.stamp
}

// "The time is its stamp plus after or every"; "The name is the code's present button name, else Unknown"
#[tactic(auto, unfolding(rules::specs::Repeat::repeated_of, rules::specs::Repeat::due_of))]
pub fn repeated(
    pad: u8,
    name: u8,
    code: u32,
    b: ButtonData,
    known: bool,
    after: u64,
    every: u64,
    clock: u64,
) -> Event
    requires { due_of known b after every clock ≡ true }
    ensures { result ≡ repeated_of pad name code b after every }
{
    let shown = dispatch::button_name(name);
    Event {
        pad,
        time: b.stamp + wait(b, after, every),
        event: EventType::Repeated(shown, code),
    }
}

// "Codes rising; the first due button": place order is that order. The records of one pad are a lent run, one for each of its places.
fn scan(buttons: &[ButtonData], after: u64, every: u64, clock: u64) -> Option<usize>
    ensures { result ≡ position (λ b. due_of true b after every clock) buttons.now }
{
    buttons
        .iter()
        .position(|b| due(*b, true, after, every, clock))
}

// the scan over a pad's button records, which are lent to it; past the last place where none is due
pub fn first_of_pad(buttons: [ButtonData; 52], after: u64, every: u64, clock: u64) -> usize
    ensures { result ≡ first_of buttons after every clock }
{
    scan(&buttons, after, every, clock).unwrap_or(PLACES_PER_PAD)
}
