// The reference model, and demand 3 over every list of commands and moves.
//
// Rests on errno, mask, number, masktext and rules.
#![tactic(auto)]
