// Older grammar files: those of document 01, and those that were accepted between papers 1 and 4 of document 02. There is no code: what such files keep, and which
// of them lose their verdicts, is said in specs/ and proved in proofs/.
#![tactic(auto)]
