// What the operations of the oracle's scenario form (`oracle/README.md`) answer. The lines that say so are `replay_lines`'.
#![tactic(auto)]

ghost use Rattle.std.specs.Prelude.{◌≡◌};

use hub::Head;
use numbers::{Tilt, Tilted};
use rules::{AxisData, ButtonData, Event, PadDown, PumpAnswer, Refusal};

// ---- the answers

// Of an operation that leaves the hub as it is: `Nothing` of what is none.
#[derive(Clone, Copy)]
pub enum Asked {
    Truth(Result<bool, Refusal>),
    Value(Result<Option<f32>, Refusal>),
    Threshold(Result<Option<f32>, Refusal>),
    Button(Result<Option<ButtonData>, Refusal>),
    Axis(Result<Option<AxisData>, Refusal>),
    Name(Result<Option<u32>, Refusal>),
    Code(Result<Option<u32>, Refusal>),
    Stands(Result<bool, Refusal>),
    Repeat(Result<Option<Event>, Refusal>),
    Waiting(u8),
    Counter(u64),
    Since(Result<Option<ButtonData>, Refusal>),
    Pair(Tilted),
    Down(Result<PadDown, Refusal>),
    Nothing,
}

// Of one that changes it; `Reported` of a pump that tells its report too.
#[derive(Clone, Copy)]
pub enum Changed {
    Begun(Result<(), Refusal>),
    Registered(Result<u8, Refusal>),
    Renamed(Result<(), Refusal>),
    Pumped(PumpAnswer),
    Reported(PumpAnswer, Tilt),
    Updated(Result<(), Refusal>),
    Inserted(Result<(), Refusal>),
    Counter(u64),
    Nothing,
}

// The head after an operation that changes the hub, and its answer.
#[derive(Clone, Copy)]
pub struct Told {
    pub head: Head,
    pub answer: Changed,
}

// The head after an operation, with its answer.
pub fn tell(head: Head, answer: Changed) -> Told
    ensures { (result.head ≡ head) × (result.answer ≡ answer) }
{
    Told { head, answer }
}
