// Laws of the distances, over the definitions that the contracts name. There is no code here: the laws are in proofs/, the words that they use in specs/.
#![tactic(auto)]
