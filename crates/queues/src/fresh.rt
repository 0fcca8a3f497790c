// Queues, none made.
ghost use Rattle.std.specs.Prelude.{◌≡◌};
ghost use Rattle.queues.specs.Fresh.{fresh, Empty};

use super::Queues;

// No queue, and every slot free.
pub fn fresh() -> Queues
    ensures exact { result ≡ fresh }
    ensures model { Empty result }
{
    Queues {
        count: 0,
        names: [0u64; 16],
        pointers: [0u8; 16],
        used: slots::none(),
        owner: [0u64; 128],
        slot: [0u8; 128],
        len: [0u8; 128],
    }
}
