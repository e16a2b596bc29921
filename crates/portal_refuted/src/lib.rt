//! Refutations: in `proofs/`, for each wrong body a lemma that its outcome meets no contract, beside one that the right outcome does.
#![tactic(auto)]
