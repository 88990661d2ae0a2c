// Document 01's demand 3, the conservation rule: one claim about every list of family calls. It has no code: specs/ and proofs/.
#![tactic(auto)]
