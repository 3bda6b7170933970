// The listing as lines of text, a page at a time (document 01, "Counting and listing").
#![tactic(auto)]

ghost use Rattle.std.specs.Prelude.{◌+◌, ◌<◌, ◌≤◌, length};
ghost use Rattle.walk.specs.Prefixes.{Walks};
ghost use Rattle.pages.specs.Page.{WroteLine, FilledPage};

use lines::put_line;
use listing::next_entry;
use steps::Standing;
use walk::{Tables, Walk};

// A line of 96 numbers has at most so many bytes: of each number five digits, and the blank or the newline after it.
const LINE_BYTES: usize = 576;

// Where the walk over the listing stands, and the place in the text where the writing goes on.
#[derive(Clone, Copy)]
pub struct Pen {
    pub at: Standing,
    pub place: usize,
}

// A page ends where the pen is, and there may be entries after it; or it ends the listing, before a place. Two ends, each with a value of its own.
#[derive(Clone, Copy)]
pub enum Page {
    More(Pen),
    Last(usize),
}

// Writes the next entry after the live prefix where the walk stands as a line, and answers where the pen then is; or there is no entry left. The path then
// begins with that entry.
fn put_next(
    tables: &Tables,
    sentence: &[u32],
    walk: &mut Walk,
    out: &mut [u8],
    pen: Pen,
) -> Option<Pen>
    requires { Walks tables.now.rules tables.now.chain sentence.now walk.old.queues walk.old.path walk.old.turns pen.at × (pen.place + 576 < length out.old) }
    ensures { WroteLine tables.now.rules tables.now.chain sentence.now walk.old.queues walk.old.path walk.old.turns out.old pen walk.new.queues walk.new.path walk.new.turns out.new result }
{
    let at = next_entry(tables, sentence, walk, pen.at)?;
    let place = put_line(&walk.path[..at.steps], out, pen.place);
    Some(Pen { at, place })
}

// Writes the entries after the live prefix where the walk stands as lines, from a place on, as long as there is room for a line of 96 numbers. The path then
// begins with the last entry written.
pub fn fill(tables: &Tables, sentence: &[u32], walk: &mut Walk, out: &mut [u8], pen: Pen) -> Page
    requires { Walks tables.now.rules tables.now.chain sentence.now walk.old.queues walk.old.path walk.old.turns pen.at × (pen.place ≤ length out.old) }
    ensures { FilledPage tables.now.rules tables.now.chain sentence.now walk.old.queues walk.old.path walk.old.turns out.old pen walk.new.queues walk.new.path walk.new.turns out.new result }
{
    let mut here = pen;
    // The room that is left ends this loop, and no list.
    while LINE_BYTES < out.len() - here.place {
        let Some(next) = put_next(tables, sentence, walk, out, here) else {
            return Page::Last(here.place);
        };
        here = next;
    }
    Page::More(here)
}
