// The marks of a record that joins or leaves.
ghost use Rattle.down.specs.Down.{Joined};
ghost use Rattle.passing.specs.Passing.{MarkedIs};

use rules::{FLAGS_PER_PAD, KIND_CONNECTED, PLACES_PER_PAD};

// Connected and Disconnected alone set or take off marks, and nothing of a pad is down once it joins.
pub fn mark_joins(
    connected: &mut [bool; 4],
    renamed: &mut [bool; 4],
    hasbutton: &mut [bool; 208],
    hasaxis: &mut [bool; 208],
    flags: &mut [bool; 24],
    down: &mut [u64; 4],
    held: &mut [u8; 4],
    heldaxes: &mut [u8; 4],
    p: u8,
    kind: u8,
)
    ensures { (MarkedIs connected.old renamed.old hasbutton.old hasaxis.old flags.old p kind
        connected.new renamed.new hasbutton.new hasaxis.new flags.new)
        × (Joined down.old held.old heldaxes.old p kind down.new held.new heldaxes.new) }
{
    if kind < KIND_CONNECTED {
        return;
    }
    let q = choices::wide(p);
    let marks = turn::marks_cleared(kind, PLACES_PER_PAD);
    let runs = turn::marks_cleared(kind, FLAGS_PER_PAD);
    turn::connect(connected, p, kind);
    turn::forget(renamed, p, kind);
    pad::clear(hasbutton, PLACES_PER_PAD * q, marks);
    pad::clear(hasaxis, PLACES_PER_PAD * q, marks);
    pad::clear_flags(flags, FLAGS_PER_PAD * q, runs);
    down::join(down, held, heldaxes, p, kind);
}
