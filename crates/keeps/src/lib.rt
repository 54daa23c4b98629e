// Valid states lead only to valid states, an action is accepted exactly when it is allowed, and any guest runs again within three records: theorems
// about the model. No code.
#![tactic(auto)]
