// Which rules each damaged state of the model's table breaks, and which it does not; and samples that end in valid states. No code.
#![tactic(auto)]
