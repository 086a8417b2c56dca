// No code: how tight the promises of the calls are.
#![tactic(auto)]
