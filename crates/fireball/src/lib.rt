// The fireball calculus: terms, fireballs, the step and its laws. Definitions are in specs/, theorems in proofs/; there is
// no code.
#![tactic(auto)]
