// What holds over every list of calls: the tally of demand 3 and its claim are in specs/, their proof in proofs/. There is no code.
#![tactic(auto)]
