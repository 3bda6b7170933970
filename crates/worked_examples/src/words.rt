// The words 0, 1 and 2 as places of a sentence, lowest and highest the same; and the analysis of K3 and K4 on the copy grammar: its sentence, its
// trace and its tree.
pub const WORD_0: u32 = 0x0000_0000;

pub const WORD_1: u32 = 0x0001_0001;

pub const WORD_2: u32 = 0x0002_0002;

pub const SENTENCE: [u32; 4] = [WORD_0, WORD_1, WORD_0, WORD_1];

pub const TRACE: [u16; 7] = [0, 1, 5, 4, 6, 5, 6];

pub const TREE: [u16; 7] = [0, 1, 5, 4, 6, 6, 5];
