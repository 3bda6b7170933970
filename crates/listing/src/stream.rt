// The listing as a stream: the next entry, by the walk over the live prefixes.
ghost use Rattle.walk.specs.Prefixes.{Walks};
ghost use Rattle.listing.specs.Stream.{WalkedToEntry};

use steps::Standing;
use walk::{Tables, Walk, at_end};

// The next entry of the listing, in dictionary order, after the live prefix that walk.path[0..at.steps] holds: of the live prefixes after it, the first that
// is complete.
pub fn next_entry(
    tables: &Tables,
    sentence: &[u32],
    walk: &mut Walk,
    at: Standing,
) -> Option<Standing>
    requires { Walks tables.now.rules tables.now.chain sentence.now walk.old.queues walk.old.path walk.old.turns at }
    ensures { WalkedToEntry tables.now.rules tables.now.chain sentence.now walk.old.queues walk.old.path walk.old.turns walk.new.queues walk.new.path walk.new.turns at result }
{
    let mut here = at;
    // The walk ends this loop, and no list.
    loop {
        here = walk.next(tables, sentence, here)?;
        if at_end(sentence, here) {
            return Some(here);
        }
    }
}
