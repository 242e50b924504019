// The worked settings that are shown by proof (RULES.md, "Settings"), as one table: specs/Table.antt has it, and
// proofs/Settings.antt proves each row. There is no code here.
//
// Rests on mask, errno, digits, number, masktext, rules, product, layout, model and lines.
#![tactic(auto)]
