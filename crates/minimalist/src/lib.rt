// Minimalist lexicons (document 02, paper 6; W11-0605, section 3). There is no code: the definitions are in specs/, and that the grammar made from a lexicon counts
// its minimalist derivations is proved in proofs/.
#![tactic(auto)]
