// Where the pixels of a frame are kept in bytes, and what painting them leaves: specs/ defines it, and proofs/ has the laws. No product code stands here.
#![tactic(auto)]
