// A journal in pieces: what any calls of feed, one after another, come to. Theorems about the model. No code.
#![tactic(auto)]
