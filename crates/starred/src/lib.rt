// No code: document 01's starred examples, proved of the rules.
#![tactic(auto)]
