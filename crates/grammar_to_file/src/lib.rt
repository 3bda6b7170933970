// The file of a grammar (document 01, "The grammar file"). There is no code: the definitions are in specs/, and that every grammar has its file, and every
// accepted file is that of its grammar, is proved in proofs/.
#![tactic(auto)]
