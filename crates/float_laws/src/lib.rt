// Laws of IEEE 754 arithmetic, over the format. There is no code here: the laws are in proofs/, the words that they use in specs/.
#![tactic(auto)]
