// Document 02, Req 01: the conservation rule of the run and of every sample, one claim about every list of family calls. It has no code: specs/ and proofs/.
#![tactic(auto)]
