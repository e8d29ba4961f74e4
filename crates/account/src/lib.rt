// The plain account of every command, and the theorem that any host ends as the account says. Nothing here is run.
#![tactic(auto)]
