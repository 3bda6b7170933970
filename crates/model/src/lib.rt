// The refusals, and the three numberings (document 01, "Who can cause a refusal" and "A grammar").
// The definitions of document 01 are in specs/, what follows from them in proofs/.
#![tactic(auto)]

ghost use Rattle.std.specs.Prelude.{◌≡◌};
ghost use Rattle.model.specs.Verdict.{number, place};

// A refusal says whose it is, the grammar's, the analysis's or the desk's, with its number and its place. It goes by its
// number, and has no name beside that: so it does in document 01, in the definitions (`number`), in C and in the tables of README.
#[derive(Clone, Copy, PartialEq, Eq)]
pub enum Refusal {
    Grammar(u8, u16),
    Analysis(u8, u16),
    Desk(u8, u16),
}

impl Refusal {
    // The number of the refusal.
    pub fn number(self) -> u8
        ensures { result ≡ number self }
    {
        match self {
            Refusal::Grammar(n, _) | Refusal::Analysis(n, _) | Refusal::Desk(n, _) => n,
        }
    }

    // The place of the refusal.
    pub fn place(self) -> u16
        ensures { result ≡ place self }
    {
        match self {
            Refusal::Grammar(_, p) | Refusal::Analysis(_, p) | Refusal::Desk(_, p) => p,
        }
    }
}

// A node count (of the reader R, of the survey C, of the writer and of the call that makes a grammar the file's length; of the weighing calls the sum of
// weights; of the calls on dates a day's number, or 1 or 0), or a refusal.
pub type Verdict = Result<u64, Refusal>;

// What the count answers: count and effort.
#[derive(Clone, Copy, PartialEq, Eq)]
pub struct Counts {
    pub count: u64,
    pub effort: u64,
}

// Category, word and rule are three numberings, each from 0, with no arithmetic between them.
#[derive(Clone, Copy, PartialEq, Eq, PartialOrd, Ord)]
pub struct Category(pub u8);

#[derive(Clone, Copy, PartialEq, Eq, PartialOrd, Ord)]
pub struct Word(pub u16);

// The number of the empty word, which is none of the grammar's words.
pub const EMPTY_WORD: u16 = 65535;

#[derive(Clone, Copy, PartialEq, Eq, PartialOrd, Ord)]
pub struct RuleNumber(pub u16);

// The limits of document 01: how many categories and rules a grammar has at most, and how many words a sentence, how many steps a trace, and how many nodes
// a tree.
pub const MOST_CATEGORIES: usize = 64;

pub const MOST_RULES: usize = 256;

pub const MOST_STEPS: usize = 96;
