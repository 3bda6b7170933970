// A tree reader: the list of a tree and a place in it.
ghost use Rattle.std.specs.Prelude.{◌≡◌, ◌+◌, ◌<◌, ◌^◌};
ghost use Rattle.trees.specs.Found.{found_at};

use model::RuleNumber;

// "parent before daughters, daughters in rule order": what stands at the place is the next node.
#[derive(Clone, Copy)]
pub struct TreeReader<'a> {
    pub list: &'a [u16],
    pub place: usize,
}

impl<'a> TreeReader<'a> {
    // The reader moved on by one, to the next node of the list: the first daughter of a node that has daughters.
    pub fn moved_on(self) -> TreeReader<'a>
        requires { self.place + 1 < 2 ^ 64 }
        ensures { (result.list ≡ self.entry.list) × (result.place ≡ self.entry.place + 1) }
    {
        TreeReader {
            list: self.list,
            place: self.place + 1,
        }
    }

    // What the reader finds at its place: a rule number, and the place where the reading goes on; or the list has ended.
    pub fn here(self) -> Option<(RuleNumber, usize)>
        requires { self.place + 1 < 2 ^ 64 }
        ensures { result ≡ found_at self.entry.list.now self.entry.place (self.entry.place + 1) }
    {
        let r = self.list.get(self.place)?;
        Some((RuleNumber(*r), self.moved_on().place))
    }
}
