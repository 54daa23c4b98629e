// What checking a host says of each rule: it holds exactly if none is broken, and the place that is named is the first. Theorems about the model. No code.
#![tactic(auto)]
