//! Tests of statements and portals: worked values for what no clause says, and each generic call at
//! a concrete type.
#![tactic(auto)]

#[cfg(test)]
mod copy_tests;
#[cfg(test)]
mod encoder_tests;
#[cfg(test)]
mod field_tests;
#[cfg(test)]
mod fixtures;
#[cfg(test)]
mod parameter_tests;
#[cfg(test)]
mod portal_tests;
#[cfg(test)]
mod store_tests;
