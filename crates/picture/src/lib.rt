// One picture, one frame: the theorem over lists of drawing calls, in proofs/. No product code stands here.
#![tactic(auto)]
