// The records of the rules of the grammar made from a lexicon (document 02, paper 6): 24 bytes each, one after another.
#![tactic(auto)]

ghost use Rattle.std.specs.Prelude.{◌≡◌, ◌+◌, ◌*◌, ◌<◌, ◌≤◌, [], length};
ghost use Rattle.made_records.specs.Records.{single, pair, merge_shape, move_shape, front_of, shape_of, run_code, code_at, size_at, record_byte, Put, Held, AddsRule};

use forms::{MergeScheme, MoveScheme};
use grammar::byte;
use model::{Category, Word};

// The most rules.
pub const RULES: usize = 256;

// The bytes of a record.
pub const RECORD: usize = 24;

// The bytes of the most records.
pub const RECORDS: usize = 6144;

// The records of rules, one after another, and how many rules there are; none is said where they are too many.
#[derive(Drop)]
pub struct Records {
    pub bytes: [u8; RECORDS],
    pub count: Option<usize>,
}

// A rule of the made grammar.
#[derive(Clone, Copy)]
pub enum MadeRule {
    // from the category of a form of the wanted one to the new start
    Start {
        daughter: Category,
    },
    // an entry's
    Entry {
        category: Category,
        word: Word,
    },
    // a merge, and how many chains move in the selecting and in the selected daughter
    Merge {
        category: Category,
        selecting: Category,
        selected: Category,
        scheme: MergeScheme,
        first: u8,
        second: u8,
    },
    // a move, how many chains move in the daughter, and the number, from 1 on, of the one that is moved
    Move {
        category: Category,
        daughter: Category,
        scheme: MoveScheme,
        chains: u8,
        chain: u8,
    },
}

// The components of a rule, their variables as bytes. The first has `joined` variables, up to two: `head` and `next`. Each other has one: `low` of them
// the variables from 1 on, then `high` of them those after `before`.
#[derive(Clone, Copy)]
pub struct Shape {
    pub joined: u8,
    pub head: u8,
    pub next: u8,
    pub low: usize,
    pub before: u8,
    pub high: usize,
}

// The first component is the head's string.
fn single(low: usize, before: u8, high: usize) -> Shape
    ensures { result ≡ single low before high }
{
    Shape {
        joined: 1,
        head: 0,
        next: 0,
        low,
        before,
        high,
    }
}

// The first component is two strings.
fn pair(head: u8, next: u8, low: usize, before: u8, high: usize) -> Shape
    ensures { result ≡ pair head next low before high }
{
    Shape {
        joined: 2,
        head,
        next,
        low,
        before,
        high,
    }
}

// The components of a merge.
fn merge_shape(scheme: MergeScheme, first: u8, second: u8) -> Shape
    ensures { result ≡ merge_shape scheme first second }
{
    let low = usize::from(first);
    let high = usize::from(second);
    match scheme {
        MergeScheme::First => pair(0, 4, low, 4, high),
        MergeScheme::Second => pair(4, 0, low, 4, high),
        MergeScheme::Third => single(low, 3, high + 1),
    }
}

// The components of a move.
fn move_shape(scheme: MoveScheme, chains: u8, chain: u8) -> Shape
    ensures { result ≡ move_shape scheme chains chain }
{
    let n = usize::from(chains);
    let t = usize::from(chain);
    match scheme {
        MoveScheme::Fourth => pair(chain, 0, t.saturating_sub(1), chain, n.saturating_sub(t)),
        MoveScheme::Fifth => single(n, 0, 0),
    }
}

// The components of a rule.
fn shape_of(rule: MadeRule) -> Shape
    ensures { result ≡ shape_of rule }
{
    match rule {
        MadeRule::Start { .. } => single(0, 0, 0),
        MadeRule::Entry { .. } => Shape {
            joined: 0,
            head: 0,
            next: 0,
            low: 0,
            before: 0,
            high: 0,
        },
        MadeRule::Merge {
            scheme,
            first,
            second,
            ..
        } => merge_shape(scheme, first, second),
        MadeRule::Move {
            scheme,
            chains,
            chain,
            ..
        } => move_shape(scheme, chains, chain),
    }
}

// The category, how many daughters, their categories, and the word.
fn front_of(rule: MadeRule) -> [u8; 7]
    ensures { result ≡ front_of rule }
{
    match rule {
        MadeRule::Start { daughter } => [0, 1, daughter.0, 0, 0, 0, 0],
        MadeRule::Entry { category, word } => [
            category.0,
            0,
            0,
            0,
            0,
            (word.0 % 256) as u8,
            (word.0 / 256 % 256) as u8,
        ],
        MadeRule::Merge {
            category,
            selecting,
            selected,
            ..
        } => [category.0, 2, selecting.0, selected.0, 0, 0, 0],
        MadeRule::Move {
            category,
            daughter,
            ..
        } => [category.0, 1, daughter.0, 0, 0, 0, 0],
    }
}

// The variable of component k + 1.
fn run_code(shape: Shape, k: usize) -> u8
    requires { k < 24 }
    ensures { result ≡ run_code shape k }
{
    let low = shape.low;
    if k < low {
        return (k + 1) as u8;
    }
    if k - low < shape.high {
        return ((usize::from(shape.before) + 1 + (k - low)) % 256) as u8;
    }
    0
}

// Variable v, component after component.
fn code_at(shape: Shape, v: usize) -> u8
    requires { v < 24 }
    ensures { result ≡ code_at shape v }
{
    let joined = usize::from(shape.joined);
    if joined <= v {
        return run_code(shape, v - joined);
    }
    if v == 0 { shape.head } else { shape.next }
}

// The length of component k.
fn size_at(shape: Shape, k: usize) -> u8
    ensures { result ≡ size_at shape k }
{
    if k == 0 {
        return shape.joined;
    }
    if k <= shape.low {
        return 1;
    }
    if k - shape.low <= shape.high {
        return 1;
    }
    0
}

// Byte p of the record.
fn record_byte(front: &[u8], shape: Shape, p: usize) -> u8
    requires { p < 24 }
    ensures { result ≡ record_byte front.now shape p }
{
    if p < 7 {
        return byte(front, p);
    }
    if p < 11 {
        return size_at(shape, p - 7);
    }
    if p < 23 {
        return code_at(shape, p - 11);
    }
    0
}

// Puts a record as record k. Those before it stay.
fn put_record(records: &mut [u8], k: usize, front: &[u8], shape: Shape)
    requires { 24 * k + 24 ≤ length records.old }
    ensures { Put (record_byte front.now shape) records.old k records.new }
{
    let at = RECORD * k;
    // By index: `Put` says what stands at each place of the bytes that hold all records.
    for p in 0..RECORD {
        records[at + p] = record_byte(front, shape, p);
    }
}

impl Records {
    // No records.
    pub fn empty() -> Records
        ensures { Held result [] }
    {
        Records {
            bytes: [0; RECORDS],
            count: Some(0),
        }
    }

    // Takes all records away.
    pub fn clear(&mut self)
        ensures { Held self.new [] }
    {
        self.count = Some(0);
    }

    // Adds a rule's record where there is room.
    pub fn add_rule(&mut self, rule: MadeRule)
        ensures { AddsRule rule self.old self.new }
    {
        // The bytes are fixed memory, so the count says how many of them are records.
        match self.count {
            Some(k) if k < RULES => {
                let front = front_of(rule);
                put_record(&mut self.bytes, k, &front, shape_of(rule));
                self.count = Some(k + 1);
            }
            _ => self.count = None,
        }
    }
}
