// The types of the desk hub: what events, records, sheets, the hub and its answers are. No function: the rules stand in specs/ as definitions.
#![tactic(auto)]

// ---- the numbers of document 01

// Kinds, names, zones and places are numbers here, and no enums: bytes and columns may hold any, columns cross to C, and the definitions of specs/ (Names, Forms,
// Sheets, Zones) speak of the number.

pub const PADS: u8 = 4;

// a pad's places: 48 elements and the four directions
pub const PLACES_PER_PAD: usize = 52;

// the place of a code that no pad has: one past the last
pub const NOWHERE: usize = 208;

// the deadzone flags of a pad, one for each stick's axis
pub const FLAGS_PER_PAD: usize = 6;

// the zones that a zone pad keeps, one for each axis of its hat (W-203)
pub const ZONES_PER_PAD: usize = 2;

// bit 7 of the hats byte makes a zone pad (W-203)
pub const ZONE_MARK: u8 = 128;

// the zones of a hat's value on such a pad
pub const MIDDLE_ZONE: u8 = 0;

pub const PLUS_ZONE: u8 = 1;

pub const MINUS_ZONE: u8 = 2;

// ---- a sheet: opening, and elements of one size

pub const SHEET_OPENING: usize = 5;

// where a sheet has its hats, and its count of elements
pub const HATS_AT: usize = 3;

pub const COUNT_AT: usize = 4;

// all four hat directions are mapped
pub const LAST_HATS: u8 = 15;

pub const ELEMENT_SIZE: usize = 18;

pub const ELEMENT_BUTTON: u8 = 1;

pub const ELEMENT_AXIS: u8 = 2;

pub const NO_NAME: u8 = 255;

// ---- a record, and an event

pub const RECORD_SIZE: usize = 21;

pub const KIND_PRESSED: u8 = 1;

pub const KIND_RELEASED: u8 = 2;

pub const KIND_AXIS: u8 = 3;

pub const KIND_CONNECTED: u8 = 4;

pub const KIND_DISCONNECTED: u8 = 5;

pub const EVENT_SIZE: usize = 22;

pub const EVENT_AXIS: u8 = 5;

// the refusal of bytes that are not of their form
pub const MALFORMED: u8 = 8;

// ---- events, records, elements, the hub

// What an event says. The cases that hold a value hold name, code and value; a button's name is 0..19, an axis's 32..40.
#[derive(Clone, Copy)]
pub enum EventType {
    Pressed(u8, u32),
    Released(u8, u32),
    Repeated(u8, u32),
    Changed(u8, u32, f32),
    Axis(u8, u32, f32),
    Connected,
    Disconnected,
    Dropped,
}

#[derive(Clone, Copy)]
pub struct Event {
    pub pad: u8,
    pub time: u64,
    pub event: EventType,
}

// An event that waits, as plain numbers: nothing that leads to an enum can cross the C boundary, and the hub holds these.
#[derive(Clone, Copy)]
pub struct Slot {
    pub kind: u8,
    pub pad: u8,
    pub name: u8,
    pub code: u32,
    pub value: f32,
    pub time: u64,
}

// A raw record, as its 21 bytes read.
#[derive(Clone, Copy)]
pub struct RawRecord {
    pub kind: u8,
    pub pad: u8,
    pub code: u32,
    pub value: i32,
    pub time: u64,
}

// The record that a step looks at: where the queue still holds something, or the record is malformed, a blank one. No Option: `next_record_of` tells the two apart,
// and `record_refusal` reads both fields.
#[derive(Clone, Copy)]
pub struct NextRecord {
    pub raw: RawRecord,
    pub fits: bool,
}

// An event's 22 bytes, as they stand: the value is still bits.
#[derive(Clone, Copy)]
pub struct EventForm {
    pub kind: u8,
    pub pad: u8,
    pub name: u8,
    pub code: u32,
    pub bits: u32,
    pub time: u64,
}

// An element as its sheet lists it.
#[derive(Clone, Copy)]
pub struct SheetElement {
    pub code: u32,
    pub kind: u8,
    pub name: u8,
    pub min: i32,
    pub max: i32,
    pub deadzone: u32,
}

// What the hub keeps of an axis element: its lowest value and its range as binary32, whether the range is odd, and its deadzone threshold.
#[derive(Clone, Copy)]
pub struct Element {
    pub low: f32,
    pub range: f32,
    pub odd: bool,
    pub threshold: f32,
}

// One of a pad's 52 places, as registration lays it: kind 0 is a direction that the sheet does not list, or a place past the last.
#[derive(Clone, Copy)]
pub struct Row {
    pub code: u32,
    pub kind: u8,
    pub name: u8,
    pub element: Element,
}

// A button record: gilrs's five fields, and since when the button has been held (W-206).
#[derive(Clone, Copy)]
pub struct ButtonData {
    pub value: f32,
    pub stamp: u64,
    pub counter: u64,
    pub pressed: bool,
    pub repeating: bool,
    pub since: u64,
}

// An axis record keeps value, stamp and counter together.
#[derive(Clone, Copy)]
pub struct AxisData {
    pub value: f32,
    pub stamp: u64,
    pub counter: u64,
}

// The hub. A pad has 52 places in code order, pad p the places 52 p to 52 p + 51; place 208 is no pad's, and stands for a code that is not there.
// `hats`, `converts` and `names` are the registered sheet's; where a pad is `renamed`, the columns `newhats`, `newconverts` and `renames` hold
// instead. A place has a button record where it is `hasbutton`, and an axis record where it is `hasaxis`. Beside the button records stands what is down
// (W-213): of each pad the bits of its places, how many of them are set, and how many of those are axis elements'.
#[derive(Clone, Copy)]
pub struct Hub {
    pub pressed: f32,
    pub released: f32,
    pub reversed: bool,
    pub filters: bool,
    pub updates: bool,
    pub counter: u64,
    pub pads: u8,
    pub counts: [u8; 4],
    pub connected: [bool; 4],
    pub hats: [u8; 4],
    pub converts: [bool; 4],
    pub renamed: [bool; 4],
    pub newhats: [u8; 4],
    pub newconverts: [bool; 4],
    pub codes: [u32; 208],
    pub kinds: [u8; 208],
    pub names: [u8; 208],
    pub renames: [u8; 208],
    pub elements: [Element; 209],
    pub hasbutton: [bool; 208],
    pub buttons: [ButtonData; 209],
    pub hasaxis: [bool; 208],
    pub axes: [AxisData; 209],
    pub down: [u64; 4],
    pub held: [u8; 4],
    pub heldaxes: [u8; 4],
    pub flags: [bool; 24],
    pub queue: [Slot; 64],
    pub head: u8,
    pub waiting: u8,
}

// ---- small values that a step gathers and decides on

// What a raw record gives: an event, and where `follows` says so one more that is queued. No Option here and below: the definitions of Dispatch, Filters and Hub
// (`single`, `double`, `view_at`, `stick_zoned`) name flag and value apart.
#[derive(Clone, Copy)]
pub struct Dispatched {
    pub event: Event,
    pub follows: bool,
    pub next: Event,
}

// The deadzone flags of an axis and of its partner: whether a value other than 0 was sent last.
#[derive(Clone, Copy)]
pub struct Flags {
    pub own: bool,
    pub partner: bool,
}

// The other axis of a pair: whether some element has its name, that element's code, and the value that the state has for it.
#[derive(Clone, Copy)]
pub struct Partner {
    pub stands: bool,
    pub code: u32,
    pub value: f32,
}

// What the filters see of the hub for one event: whether the pad converts and the hat's two directions read pressed; the stored axis value; the
// threshold, where there is one; the value that the state has for the code; the partner, and the flags.
#[derive(Clone, Copy)]
pub struct View {
    pub converts: bool,
    pub positive: bool,
    pub negative: bool,
    pub stored: bool,
    pub stick: f32,
    pub dead: bool,
    pub threshold: f32,
    pub own: f32,
    pub partner: Partner,
    pub flags: Flags,
}

// What the deadzone makes of an event: the event or Dropped, whether the partner is cleared and by which event, and the two flags after.
#[derive(Clone, Copy)]
pub struct Zoned {
    pub event: Event,
    pub clears: bool,
    pub clearing: Event,
    pub flags: Flags,
}

// ---- answers: a call that is served answers `Ok`, and a query for what is absent `Ok(None)`

// A refusal, by its number in document 01's table, and no enum: the definitions of Refusals and Sheets work the number out, 0 for none.
#[derive(Clone, Copy)]
pub struct Refusal {
    pub number: u8,
}

// Of new, rename, update and insert_event.
#[derive(Clone, Copy)]
pub struct Answered {
    pub hub: Hub,
    pub answer: Result<(), Refusal>,
}

// Of register: the pad's number.
#[derive(Clone, Copy)]
pub struct Registered {
    pub hub: Hub,
    pub answer: Result<u8, Refusal>,
}

// Each holds the place in the batch, the events written and the steps made; a refusal's number stands before them. No Result: the refusal carries them too.
#[derive(Clone, Copy)]
pub enum PumpAnswer {
    Drained(usize, usize, usize),
    Full(usize, usize, usize),
    Paused(usize, usize, usize),
    Refused(u8, usize, usize, usize),
}

#[derive(Clone, Copy)]
pub struct Pumped {
    pub hub: Hub,
    pub answer: PumpAnswer,
}

// How many button records of a pad are pressed, and whether an axis element's is (W-213).
#[derive(Clone, Copy)]
pub struct PadDown {
    pub count: u8,
    pub axis: bool,
}
