// No code: the theorem that tells when two triangles have a point strictly inside both. It stands in proofs/.

#![tactic(auto)]
