// Document 01's pump on a hub that is lent: the head goes in and comes back by value, the arrays are lent and changed where they stand, so that no call
// copies the hub. A turn of the loop takes an event, makes a record's marks, and serves the event, each in one call that is lent the arrays; a kept event is
// settled in the state and written. The contract is the equation of the pump that takes the hub by value, at the hub that head and arrays stand for, and one for
// the report beside each answer.
#![tactic(auto)]

ghost use Rattle.std.specs.Prelude.{◌≡◌};
ghost use Rattle.rules.specs.Pump.{pump_of};
ghost use Rattle.rules.specs.Tilt.{pump_tilt};
ghost use Rattle.hub.specs.Lent.{hub_of, pumped};
ghost use Rattle.hub.specs.Holding.{listed_now, columns_now, Same};
ghost use Rattle.pump.specs.Stepped.{stepped_head};

use hub::{Head, Listing, PumpedHead, Seen, Serving, State, Store};
use numbers::Tilt;
use rules::{EVENT_SIZE, PumpAnswer};

// The head after some steps: its settings stay.
fn stepped(
    head: Head,
    connected: [bool; 4],
    renamed: [bool; 4],
    down: [u64; 4],
    held: [u8; 4],
    heldaxes: [u8; 4],
    flags: [bool; 24],
    front: u8,
    waiting: u8,
) -> Head
    ensures { result ≡ stepped_head head connected renamed down held heldaxes flags front waiting }
{
    let mut h = head;
    h.connected = connected;
    h.renamed = renamed;
    h.down = down;
    h.held = held;
    h.heldaxes = heldaxes;
    h.flags = flags;
    h.head = front;
    h.waiting = waiting;
    h
}

// Takes records from a batch, and waiting events before them, one a step; sends each through the filters, keeps the state, and writes what is handed out as
// bytes. It stops Drained, Full or Paused, or at a record that is refused, with the place in the batch, the events written and the steps made, and reports which of
// three the deadzone calculation was for its last axis event that met a threshold. Refuses 14 and 8 for the whole call, and a record by 8, 6, 9, 10, 11, 12.
pub fn pump(
    head: Head,
    listed: &Listing<'_>,
    lent: &mut Store<'_>,
    batch: &[u8],
    place: usize,
    out: &mut [u8],
    allowance: u16,
) -> PumpedHead
    ensures pumped { pumped result (listed_now listed.now) (columns_now lent.new) out.new
        ≡ pump_of (hub_of head (listed_now listed.now) (columns_now lent.old)) batch.now place out.old allowance }
    ensures tilt { result.tilt ≡ pump_tilt (hub_of head (listed_now listed.now) (columns_now lent.old)) batch.now place out.old allowance }
    ensures same { Same lent.old lent.new }
{
    let settings = head;
    let refused = refusals::pump_refusal(batch.len(), out.len(), place);
    if 0 < refused {
        return PumpedHead {
            head: settings,
            answer: PumpAnswer::Refused(refused, place, 0, 0),
            tilt: Tilt::Unmet,
        };
    }
    // what steps change of the head
    let mut connected = settings.connected;
    let mut renamed = settings.renamed;
    let mut down = settings.down;
    let mut held = settings.held;
    let mut heldaxes = settings.heldaxes;
    let mut flags = settings.flags;
    let mut front = settings.head;
    let mut waiting = settings.waiting;
    // lent on by itself, so that the head's other fields need not stand in memory
    let converts = settings.converts;
    let newconverts = settings.newconverts;
    let mut at = place;
    // the bytes of the events written, and the steps left: how many events and steps that makes is worked out where the pump returns, since each number that
    // the loop carries takes a register
    let mut filled: usize = 0;
    let most = allowance as usize;
    let mut left = most;
    let mut tilt = Tilt::Unmet;
    loop {
        let sent = loop {
            let why = turn::stop(waiting, batch.len() - at, out.len() - filled, left);
            if 0 < why {
                return PumpedHead {
                    head: stepped(
                        settings, connected, renamed, down, held, heldaxes, flags, front, waiting,
                    ),
                    answer: turn::stop_answer(why, at, filled / EVENT_SIZE, most - left),
                    tilt: tilt,
                };
            }
            // gather and decide: what is taken
            let seen = Seen {
                hasbutton: lent.hasbutton,
                values: lent.values,
                times: lent.times,
                marks: lent.marks,
                queuebytes: lent.queuebytes,
                queuecodes: lent.queuecodes,
            };
            let taken = taking::take(
                listed,
                &renamed,
                &seen,
                batch,
                at,
                waiting,
                front,
                settings.pads,
                settings.pressed,
                settings.released,
                settings.reversed,
            );
            if 0 < taken.number {
                return PumpedHead {
                    head: stepped(
                        settings, connected, renamed, down, held, heldaxes, flags, front, waiting,
                    ),
                    answer: PumpAnswer::Refused(taken.number, at, filled / EVENT_SIZE, most - left),
                    tilt: tilt,
                };
            }
            // commit: the marks of a taken record, the ring, the place
            passing::joining::mark_joins(
                &mut connected,
                &mut renamed,
                lent.hasbutton,
                lent.hasaxis,
                &mut flags,
                &mut down,
                &mut held,
                &mut heldaxes,
                taken.pad,
                taken.kind,
            );
            at = taken.at;
            front = taken.head;
            left = left - 1;
            // what the filters make of the event; commit: flags and queue
            let mut serving = Serving {
                hasbutton: lent.hasbutton,
                hasaxis: lent.hasaxis,
                marks: lent.marks,
                values: lent.values,
                times: lent.times,
                queuebytes: lent.queuebytes,
                queuecodes: lent.queuecodes,
            };
            let passed = passing::serve(
                listed,
                &renamed,
                &converts,
                &newconverts,
                &mut serving,
                &mut flags,
                settings.filters,
                taken,
                tilt,
            );
            tilt = passed.tilt;
            let served = passed.served;
            waiting = served.waiting;
            if events::kept(settings.filters, served.event) {
                break served;
            }
        };
        // commit: the state, and the event's bytes
        let kept = sent.event;
        let mut state = State {
            hasbutton: lent.hasbutton,
            hasaxis: lent.hasaxis,
            values: lent.values,
            times: lent.times,
            marks: lent.marks,
        };
        let change = cells::settle(
            &mut state,
            settings.updates,
            kept,
            settings.counter,
            sent.place,
        );
        down::follow(
            listed.kinds,
            &mut down,
            &mut held,
            &mut heldaxes,
            sent.place,
            change,
        );
        wire::write_event(&mut out[filled..], kept);
        filled = filled + EVENT_SIZE;
    }
}
