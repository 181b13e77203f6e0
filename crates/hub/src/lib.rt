// The hub in place. What is small goes by value, as the head; the arrays are lent and changed where they stand, so that no call copies the hub. Which
// hub of the law book head and arrays stand for is said in specs/Lent.antt. No function: the calls stand in the crates above.
#![tactic(auto)]

use columns::{Marks, QueueBytes, QueueCodes, Times, Values};
use numbers::Tilt;
use rules::{PumpAnswer, Refusal};

// What of a hub is small: its settings, the counter, what it keeps of each pad and what of it is down, the deadzone flags, and where the queue stands.
#[repr(C)]
#[derive(Clone, Copy)]
pub struct Head {
    pub pressed: f32,
    pub released: f32,
    pub reversed: bool,
    pub filters: bool,
    pub updates: bool,
    pub counter: u64,
    pub down: [u64; 4],
    pub pads: u8,
    pub counts: [u8; 4],
    pub connected: [bool; 4],
    pub hats: [u8; 4],
    pub converts: [bool; 4],
    pub renamed: [bool; 4],
    pub newhats: [u8; 4],
    pub newconverts: [bool; 4],
    pub held: [u8; 4],
    pub heldaxes: [u8; 4],
    pub flags: [bool; 24],
    pub head: u8,
    pub waiting: u8,
}

// ---- the lent arrays, held together for one call: what the pads list, which is read, and the marks, records and queue, which steps change where they stand

#[derive(Clone, Copy)]
pub struct Listing<'a> {
    pub codes: &'a [u32; 208],
    pub kinds: &'a [u8; 208],
    pub names: &'a [u8; 208],
    pub renames: &'a [u8; 208],
}

// Of these what an event given to the state writes.
#[derive(Drop)]
pub struct State<'a> {
    pub hasbutton: &'a mut [bool; 208],
    pub hasaxis: &'a mut [bool; 208],
    pub values: &'a mut Values,
    pub times: &'a mut Times,
    pub marks: &'a mut Marks,
}

// What is read to take a step's event.
#[derive(Clone, Copy)]
pub struct Seen<'a> {
    pub hasbutton: &'a [bool; 208],
    pub values: &'a Values,
    pub times: &'a Times,
    pub marks: &'a Marks,
    pub queuebytes: &'a QueueBytes,
    pub queuecodes: &'a QueueCodes,
}

// What serving it reads, the marks, and what it writes where events are queued.
#[derive(Drop)]
pub struct Serving<'a> {
    pub hasbutton: &'a [bool; 208],
    pub hasaxis: &'a [bool; 208],
    pub marks: &'a Marks,
    pub values: &'a mut Values,
    pub times: &'a mut Times,
    pub queuebytes: &'a mut QueueBytes,
    pub queuecodes: &'a mut QueueCodes,
}

// And what a query reads of buttons.
#[derive(Clone, Copy)]
pub struct Buttons<'a> {
    pub hasbutton: &'a [bool; 208],
    pub values: &'a Values,
    pub times: &'a Times,
    pub marks: &'a Marks,
}

#[derive(Drop)]
pub struct Store<'a> {
    pub hasbutton: &'a mut [bool; 208],
    pub hasaxis: &'a mut [bool; 208],
    pub values: &'a mut Values,
    pub times: &'a mut Times,
    pub marks: &'a mut Marks,
    pub queuebytes: &'a mut QueueBytes,
    pub queuecodes: &'a mut QueueCodes,
}

// ---- the head after a call, with its answer

#[derive(Clone, Copy)]
pub struct PumpedHead {
    pub head: Head,
    pub answer: PumpAnswer,
    // the report beside every answer (W-205)
    pub tilt: Tilt,
}

#[derive(Clone, Copy)]
pub struct AnsweredHead {
    pub head: Head,
    pub answer: Result<(), Refusal>,
}

#[derive(Clone, Copy)]
pub struct RegisteredHead {
    pub head: Head,
    pub answer: Result<u8, Refusal>,
}
