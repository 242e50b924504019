// What a caller in C is promised of the functions that write a record: the answer, every byte, and that the call is a case of
// the chains of demand 3.
//
// Rests on rules, model, fields, layout, encoding, assignnumber, assign, host, configure, create, devices, sweep,
// calls, request and shown.
#![tactic(auto)]
