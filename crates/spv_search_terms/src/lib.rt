//! `subterms`: The different subterms of terms as ids, arguments first; and what an arena gains by a term that is made.
//! `condition_copy`: A condition in an arena of its own, in which nothing else stands but 0, 1, TRUE and FALSE.
//! `head_index`: Terms of one head, each with the next one behind it; and tests of terms.
//! `split_candidates`: The subterms, the atoms and the questions of a search as ids.
#![tactic(auto)]

pub mod condition_copy;
pub mod head_index;
pub mod split_candidates;
pub mod subterms;
