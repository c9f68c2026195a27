// Remainders, overlays and correction stand in specs/ as definitions, and the theorems in proofs/; no code of its own. The calls are in crate parity.
#![tactic(auto)]
