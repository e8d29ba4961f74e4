// Theorems only: an access leaves a well-made card well made, and all that is lent as long as it was.
#![tactic(auto)]
