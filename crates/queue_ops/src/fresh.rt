// Queues, none made.
ghost use Rattle.std.specs.Prelude.{◌≡◌, length};
ghost use Rattle.queue_rows.specs.Table.{view_of};
ghost use Rattle.queue_rows.specs.Fresh.{fresh_of};

use words::cells::clear;

// No queue, and every slot free: every word is 0. The items are lent for their length alone.
pub fn fresh(queues: &mut [u64], items: &[u8])
    ensures exact { view_of queues.new (length items.now) ≡ fresh_of (view_of queues.old (length items.now)) }
{
    clear(queues);
}
