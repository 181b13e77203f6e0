// The hub's records in columns of numbers, and the columns packed by type into arrays that are lent: a record read from its place, and one stored there in
// place. Where a column starts in its array is said here and in specs/Columns.antt, and nowhere above.
#![tactic(auto)]

ghost use Rattle.std.specs.Prelude.{◌≡◌, ◌<◌, ◌≤◌, get_or};
ghost use Rattle.rules.specs.Names.{nowhere, queue_room};
ghost use Rattle.rules.specs.Hub.{past_element, past_button, past_axis, past_slot};
ghost use Rattle.columns.specs.Columns.{elements_of, buttons_of, axes_of, slots_of};
ghost use Rattle.columns.specs.Stores.{ButtonPut, AxisPut, ElementPut, SlotPut};
ghost use Rattle.columns.specs.Blank.{Blank};

use rules::{AxisData, ButtonData, Element, Slot};

// ---- the arrays, and where their columns start

// The values of the buttons, of the axes, low, range and threshold of the elements, and the values of the queue.
pub type Values = [f32; 1109];

const BUTTON_VALUES: usize = 0;

const AXIS_VALUES: usize = 209;

const LOWS: usize = 418;

const RANGES: usize = 627;

const THRESHOLDS: usize = 836;

const QUEUE_VALUES: usize = 1045;

// Stamps and counters of the buttons and since when they are held, stamps and counters of the axes, and the times of the queue.
pub type Times = [u64; 1109];

const BUTTON_STAMPS: usize = 0;

const BUTTON_COUNTERS: usize = 209;

const BUTTON_SINCES: usize = 418;

const AXIS_STAMPS: usize = 627;

const AXIS_COUNTERS: usize = 836;

const QUEUE_TIMES: usize = 1045;

// Pressed and repeating of the buttons, and odd of the elements.
pub type Marks = [bool; 627];

const PRESSED: usize = 0;

const REPEATING: usize = 209;

const ODD: usize = 418;

// Kinds, pads and names of the queue.
pub type QueueBytes = [u8; 192];

const QUEUE_KINDS: usize = 0;

const QUEUE_PADS: usize = 64;

const QUEUE_NAMES: usize = 128;

pub type QueueCodes = [u32; 64];

// ---- a record read

// What an axis element keeps at a place.
#[tactic(auto, using(crate::proofs::Records::records))]
pub fn element_at(values: &Values, marks: &Marks, k: usize) -> Element
    requires { k ≤ nowhere }
    ensures { result ≡ get_or (elements_of values.now marks.now) k past_element }
{
    Element {
        low: values[LOWS + k],
        range: values[RANGES + k],
        odd: marks[ODD + k],
        threshold: values[THRESHOLDS + k],
    }
}

// The button record of a place.
#[tactic(auto, using(crate::proofs::Records::records))]
pub fn button_at(values: &Values, times: &Times, marks: &Marks, k: usize) -> ButtonData
    requires { k ≤ nowhere }
    ensures { result ≡ get_or (buttons_of values.now times.now marks.now) k past_button }
{
    ButtonData {
        value: values[BUTTON_VALUES + k],
        stamp: times[BUTTON_STAMPS + k],
        counter: times[BUTTON_COUNTERS + k],
        pressed: marks[PRESSED + k],
        repeating: marks[REPEATING + k],
        since: times[BUTTON_SINCES + k],
    }
}

// The axis record of a place.
#[tactic(auto, using(crate::proofs::Records::records))]
pub fn axis_at(values: &Values, times: &Times, k: usize) -> AxisData
    requires { k ≤ nowhere }
    ensures { result ≡ get_or (axes_of values.now times.now) k past_axis }
{
    AxisData {
        value: values[AXIS_VALUES + k],
        stamp: times[AXIS_STAMPS + k],
        counter: times[AXIS_COUNTERS + k],
    }
}

// The event that waits in a slot of the ring.
#[tactic(auto, using(crate::proofs::Records::records))]
pub fn slot_at(
    values: &Values,
    times: &Times,
    queuebytes: &QueueBytes,
    queuecodes: &QueueCodes,
    k: usize,
) -> Slot
    requires { k < queue_room }
    ensures { result ≡ get_or (slots_of values.now times.now queuebytes.now queuecodes.now) k past_slot }
{
    Slot {
        kind: queuebytes[QUEUE_KINDS + k],
        pad: queuebytes[QUEUE_PADS + k],
        name: queuebytes[QUEUE_NAMES + k],
        code: queuecodes[k],
        value: values[QUEUE_VALUES + k],
        time: times[QUEUE_TIMES + k],
    }
}

// ---- a record stored: its own list has it, and the other lists are as they were

// Stores a button record; every other cell stays.
pub fn put_button(
    values: &mut Values,
    times: &mut Times,
    marks: &mut Marks,
    k: usize,
    b: ButtonData,
)
    requires { k ≤ nowhere }
    ensures { ButtonPut values.old times.old marks.old k b values.new times.new marks.new }
{
    values[BUTTON_VALUES + k] = b.value;
    times[BUTTON_STAMPS + k] = b.stamp;
    times[BUTTON_COUNTERS + k] = b.counter;
    marks[PRESSED + k] = b.pressed;
    marks[REPEATING + k] = b.repeating;
    times[BUTTON_SINCES + k] = b.since;
}

// Stores an axis record; every other cell stays.
pub fn put_axis(values: &mut Values, times: &mut Times, k: usize, a: AxisData)
    requires { k ≤ nowhere }
    ensures { AxisPut values.old times.old k a values.new times.new }
{
    values[AXIS_VALUES + k] = a.value;
    times[AXIS_STAMPS + k] = a.stamp;
    times[AXIS_COUNTERS + k] = a.counter;
}

// Stores what an axis element keeps; every other cell stays.
pub fn put_element(values: &mut Values, marks: &mut Marks, k: usize, e: Element)
    requires { k ≤ nowhere }
    ensures { ElementPut values.old marks.old k e values.new marks.new }
{
    values[LOWS + k] = e.low;
    values[RANGES + k] = e.range;
    marks[ODD + k] = e.odd;
    values[THRESHOLDS + k] = e.threshold;
}

// Stores an event in a slot of the ring; every other cell stays.
pub fn put_slot(
    values: &mut Values,
    times: &mut Times,
    queuebytes: &mut QueueBytes,
    queuecodes: &mut QueueCodes,
    k: usize,
    s: Slot,
)
    requires { k < queue_room }
    ensures { SlotPut values.old times.old queuebytes.old queuecodes.old k s
        values.new times.new queuebytes.new queuecodes.new }
{
    queuebytes[QUEUE_KINDS + k] = s.kind;
    queuebytes[QUEUE_PADS + k] = s.pad;
    queuebytes[QUEUE_NAMES + k] = s.name;
    queuecodes[k] = s.code;
    values[QUEUE_VALUES + k] = s.value;
    times[QUEUE_TIMES + k] = s.time;
}

// ---- all records made blank, whatever the arrays held

// Every record and every slot as a fresh hub has them.
pub fn blank(
    values: &mut Values,
    times: &mut Times,
    marks: &mut Marks,
    queuebytes: &mut QueueBytes,
    queuecodes: &mut QueueCodes,
)
    ensures { Blank values.new times.new marks.new queuebytes.new queuecodes.new }
{
    *values = [0.0; 1109];
    *times = [0u64; 1109];
    *marks = [false; 627];
    *queuebytes = [0u8; 192];
    *queuecodes = [0u32; 64];
}
