//! Tests of intervals: worked values of sums, cells, durations and normal forms, and the equality
//! that derives give.
#![tactic(auto)]

#[cfg(test)]
mod cell_tests;
#[cfg(test)]
mod compared;
#[cfg(test)]
mod difference_tests;
#[cfg(test)]
mod duration_tests;
#[cfg(test)]
mod normal_form_tests;
#[cfg(test)]
mod refusal_tests;
#[cfg(test)]
mod sum_tests;
