// Document 01's worked cases, proved of the definitions: specs/ and proofs/. There is no code.
#![tactic(auto)]
