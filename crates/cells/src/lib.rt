// What a step sees and writes of the records in their columns: one call for all that it sees, one for the state after an event. The loop above is lent the
// arrays; a read or a store of its own for each record would cost its check far more.
#![tactic(auto)]

ghost use Rattle.std.specs.Prelude.{◌≡◌, ◌≤◌, get_or};
ghost use Rattle.rules.specs.Names.{nowhere};
ghost use Rattle.rules.specs.Hub.{past_element, past_button, past_axis};
ghost use Rattle.gather.specs.EventPlaces.{view_by};
ghost use Rattle.columns.specs.Columns.{elements_of, buttons_of, axes_of};
ghost use Rattle.hub.specs.Holding.{SameState};
ghost use Rattle.cells.specs.Seen.{stored_at, held_at};
ghost use Rattle.cells.specs.Settled.{Settled};

use columns::{Marks, Times, Values};
use gather::EventPlaces;
use hub::State;
use rules::{Event, View};

// What a stick sees, with what stands at the places: the own element and records, the partner's records.
pub fn view_in(values: &Values, times: &Times, marks: &Marks, s: EventPlaces) -> View
    requires { (s.own.place ≤ nowhere) × (s.partner.place ≤ nowhere) }
    ensures { result ≡ view_by s (get_or (elements_of values.now marks.now) s.own.place past_element)
        (get_or (buttons_of values.now times.now marks.now) s.own.place past_button)
        (get_or (axes_of values.now times.now) s.own.place past_axis)
        (get_or (buttons_of values.now times.now marks.now) s.partner.place past_button)
        (get_or (axes_of values.now times.now) s.partner.place past_axis) }
{
    let own = s.own;
    let other = s.partner;
    let o = own.place;
    let q = other.place;
    gather::view_of(
        s,
        columns::element_at(values, marks, o),
        columns::button_at(values, times, marks, o),
        columns::axis_at(values, times, o),
        columns::button_at(values, times, marks, q),
        columns::axis_at(values, times, q),
    )
}

// The value of a place: its axis record's, else its button record's.
#[tactic(auto, unfolding(gather::specs::EventPlaces::place_marks_of))]
pub fn value_in<'a>(
    hasbutton: &'a [bool; 208],
    hasaxis: &'a [bool; 208],
    values: &'a Values,
    times: &'a Times,
    marks: &'a Marks,
    k: usize,
) -> f32
    requires { k ≤ nowhere }
    ensures { result ≡ stored_at hasbutton.now hasaxis.now (buttons_of values.now times.now marks.now)
        (axes_of values.now times.now) k }
{
    let m = gather::place_marks(hasbutton, hasaxis, k);
    state::read_value(
        m.hasaxis,
        columns::axis_at(values, times, k),
        m.hasbutton,
        columns::button_at(values, times, marks, k),
    )
}

// Whether the button record of a place is pressed; not where none stands.
pub fn held_in<'a>(
    hasbutton: &'a [bool; 208],
    values: &'a Values,
    times: &'a Times,
    marks: &'a Marks,
    k: usize,
) -> bool
    requires { k ≤ nowhere }
    ensures { result ≡ held_at hasbutton.now (buttons_of values.now times.now marks.now) k }
{
    state::read_pressed(
        pad::bool_at(hasbutton, k),
        columns::button_at(values, times, marks, k),
    )
}

// The state after a kept event whose code stands at k: with updates on, the record that the event writes, and the mark that it stands; and how the place's button
// record reads with it. What follows from that is told by `down`, so that this stays small enough to be made part of the pump's loop.
pub fn settle(state: &mut State<'_>, on: bool, e: Event, counter: u64, k: usize) -> u8
    requires { k ≤ nowhere }
    ensures settled { let s = state.old in let t = state.new in
        Settled s.hasbutton.now s.hasaxis.now s.values.now s.times.now s.marks.now k on e counter result
        t.hasbutton.now t.hasaxis.now t.values.now t.times.now t.marks.now }
    ensures same { SameState state.old state.new }
{
    if !on {
        return down::STILL;
    }
    if state::writes_button(e) {
        let known = pad::bool_at(state.hasbutton, k);
        let b = columns::button_at(state.values, state.times, state.marks, k);
        let was = state::read_pressed(known, b);
        let after = state::button_after(e, known, b, counter);
        columns::put_button(state.values, state.times, state.marks, k, after);
        pad::mark(state.hasbutton, k, true);
        return down::change(was, after.pressed);
    }
    if !state::writes_axis(e) {
        return down::STILL;
    }
    let a = columns::axis_at(state.values, state.times, k);
    columns::put_axis(
        state.values,
        state.times,
        k,
        state::axis_after(e, a, counter),
    );
    pad::mark(state.hasaxis, k, true);
    down::STILL
}
