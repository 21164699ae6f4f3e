// What a caller may rely on who evaluates a term again, with more budget and longer arrays: what the second call answers and
// writes. Definitions are in specs/, theorems in proofs/; there is no code.
#![tactic(auto)]
