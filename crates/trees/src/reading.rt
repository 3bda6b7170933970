// The tree reader: a node calls the reading of its daughters, which calls the reading of a node.
ghost use Rattle.std.specs.Prelude.{[], ◌∷◌, ◌≡◌, ◌<◌, ◌≤◌, length, drop};
ghost use Rattle.std.proofs.Math.Option.{none};
ghost use Rattle.model.specs.GrammarFile.{rules_of, grammar_refusal, grammar_of};
ghost use Rattle.trees.specs.Reader.{Readable, below, Reading, ReadAll};

use crate::tree_reader::TreeReader;
use grammar::{category_of, daughter, daughter_count, rules, start};
use model::{Category, MOST_STEPS, Refusal, RuleNumber};

// Reads the tree at the reader's place, whose root is wanted of category a, and stores for each of its nodes the place after the node's tree. Answers the
// place after the tree, or the refusal that it meets.
#[cycle(read_daughters_read_node)]
pub fn read_node(
    file: &[u8],
    at: TreeReader,
    a: Category,
    ends: &mut [u16; MOST_STEPS],
) -> Result<usize, Refusal>
    requires { Readable file.now at.list.now at.place ends.old }
    ensures { Reading (grammar_of file.now) at.entry.list.now (a.0 ∷ []) at.entry.place ends.old ends.new result }
{
    let Some((r, next)) = at.here() else {
        return Err(Refusal::Analysis(19, at.list.len() as u16));
    };
    if rules(file) <= r.0 {
        return Err(Refusal::Analysis(13, at.place as u16));
    }
    if category_of(file, r) != a {
        return Err(Refusal::Analysis(20, at.place as u16));
    }
    let first = TreeReader {
        list: at.list,
        place: next,
    };
    let after = read_daughters(file, first, r, ends)?;
    ends[at.place] = after as u16;
    Ok(after)
}

// Reads the daughters of a node of rule r, the first of them at the reader's place. Answers the place after them, or the refusal that one of them meets.
#[cycle(read_daughters_read_node)]
pub fn read_daughters(
    file: &[u8],
    mut at: TreeReader,
    r: RuleNumber,
    ends: &mut [u16; MOST_STEPS],
) -> Result<usize, Refusal>
    requires { Readable file.now at.list.now at.place ends.old × (r.0 < rules_of file.now) }
    ensures { Reading (grammar_of file.now) at.entry.list.now (below (grammar_of file.now) r.0) at.entry.place ends.old ends.new result }
{
    for j in 0..usize::from(daughter_count(file, r)) {
        at.place = read_node(file, at, daughter(file, r, j), ends)?;
    }
    Ok(at.place)
}

// Reads the whole list as one tree with the start category as root: refusals 19, 13, 20 and 21.
pub fn read_tree(file: &[u8], list: &[u16], ends: &mut [u16; MOST_STEPS]) -> Result<(), Refusal>
    requires { (grammar_refusal file.now ≡ none) × (length list.now ≤ 96) }
    ensures { ReadAll (grammar_of file.now) list.now ends.new result }
{
    let first = TreeReader { list, place: 0 };
    let after = read_node(file, first, start(file), ends)?;
    if after < list.len() {
        return Err(Refusal::Analysis(21, after as u16));
    }
    Ok(())
}
