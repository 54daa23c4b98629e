// The rules of docs/HOST.md as definitions that run, in specs/, section by section; what follows from them at once, in proofs/. No code.
#![tactic(auto)]
