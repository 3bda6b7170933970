// Sentences of single words (document 02, paper 5): they have the answers that they had before places held ranges, and the trees of a sentence heard unclearly are
// those of the sentences of single words that it may be. There is no code: specs/ has what is said, proofs/ why it holds.
#![tactic(auto)]
