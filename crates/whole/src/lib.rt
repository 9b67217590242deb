// Laws of whole numbers that the proofs of the other crates cite: proofs/ has them. No product code stands here.
#![tactic(auto)]
