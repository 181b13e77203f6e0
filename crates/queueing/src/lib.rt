// An event put into the queue where it stands. What is left of the lent arrays is one equation on the queue; the records, whose columns stand in the same
// arrays, are as they were.
#![tactic(auto)]

ghost use Rattle.std.specs.Prelude.{[], ◌∷◌};
ghost use Rattle.queueing.specs.Queued.{Pushed};

use columns::{QueueBytes, QueueCodes, Times, Values};
use rules::Event;

// One event more waits; how many wait then.
pub fn push(
    values: &mut Values,
    times: &mut Times,
    queuebytes: &mut QueueBytes,
    queuecodes: &mut QueueCodes,
    head: u8,
    waiting: u8,
    e: Event,
) -> u8
    ensures { Pushed values.old times.old queuebytes.old queuecodes.old head waiting (e ∷ [])
        values.new times.new queuebytes.new queuecodes.new result }
{
    let free = turn::free(head, waiting);
    columns::put_slot(
        values,
        times,
        queuebytes,
        queuecodes,
        free,
        events::slot_of(e),
    );
    turn::longer(waiting)
}
