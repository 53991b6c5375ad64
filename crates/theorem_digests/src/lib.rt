//! What the settle theorem asks of digests, where these are the SHA-1 of spellings. There is no code here: the functions carry the theorem.
#![tactic(auto)]

mod laws;

pub use laws::{
    distinct_digests_tell, settle_premises_are_met, settles_agree_by_digests, spellings_tell,
};
