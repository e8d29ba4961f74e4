// The thirteen proved samples of document 01: one list of inputs and results, and one proof over it; bad sectors and blocks by examples; and wrong cards, each with
// a sample that it fails.
// Statements only, nothing runs.
#![tactic(auto)]
