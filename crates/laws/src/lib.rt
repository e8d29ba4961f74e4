// Theorems about the card's definitions: what every access keeps. There is no function here; read the statements in proofs/.
#![tactic(auto)]
