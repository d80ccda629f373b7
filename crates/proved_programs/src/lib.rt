//! Examples that are proved to meet their specifications.
#![tactic(auto)]

mod building;
mod laws;

pub use building::build_sum;
pub use laws::{
    clock_goes_round, down_counts, gcd_is_found, inc_increments, nim_is_decided, nim_plays,
    piles_play, seven_runs, sort_sorts, sum_sums_up,
};
