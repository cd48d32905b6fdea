//! Tests of memory and sizes: growths that are refused, what is given back, and great inputs; and inputs that other tests
//! share.
#![tactic(auto)]

#[cfg(test)]
mod assertions;
#[cfg(test)]
mod byte_by_byte;
#[cfg(test)]
mod given_back;
#[cfg(test)]
mod great_sizes;
pub mod inputs;
#[cfg(test)]
mod refused_calls;
#[cfg(test)]
mod refused_growth;
#[cfg(test)]
mod reports;
#[cfg(test)]
mod sizes;
