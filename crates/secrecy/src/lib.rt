// What a guest keeps at the stealth address, and the values that it writes, show in nothing that others see. Theorems about the model. No code.
#![tactic(auto)]
