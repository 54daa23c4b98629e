// Each guest's pages hold what it put there, whatever the records are: what a run's accepted actions say by themselves, and that every run is as they say. No code.
#![tactic(auto)]
