// Definitions and laws on lists that every layer cites, where std has none: specs/ and proofs/. There is no code.
#![tactic(auto)]
