// Layer 3: the analyses of the source's files, in stages, and what is read from them.
#![tactic(auto)]

pub mod allocation_answers;
pub mod allocation_liveness;
pub mod allocation_words;
pub mod answers;
pub mod block_sets;
pub mod def_use;
pub mod loading;
pub mod local_intervals;
pub mod local_liveness;
pub mod merged_intervals;
pub mod pointer_links;
pub mod predecessors;
pub mod reverse_post_order;
pub mod staged;
pub mod stages;
