// Lemmas and the words they are about, in specs/ and proofs/; no code. Nothing here knows of the machine.
#![tactic(auto)]
