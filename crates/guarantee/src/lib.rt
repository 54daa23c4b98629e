// Demand 3 down to the bytes: what `step`, `steps::run` and `journal::run` leave, one call after another, by the history of accepted actions; and that
// any guest runs again within three records. No code.
#![tactic(auto)]
