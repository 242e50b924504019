// Demand 3 for whoever calls the library: chains of calls on lent memory.
//
// Rests on errno, rules, layout, model, setup, host, configure, bind, devices, create, assign and sweep.
#![tactic(auto)]
