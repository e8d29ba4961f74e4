// Theorems only: C4H does what 20H does, and C5H what 30H does, whatever the block; and how often they set the interrupt mark.
#![tactic(auto)]
