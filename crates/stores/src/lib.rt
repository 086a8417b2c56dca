// No code: what is safe about site servers that keep each party's record as bytes, make the calls of yazhmandu on them and send messages.
#![tactic(auto)]
