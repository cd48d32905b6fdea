//! Tests of captures, of the machine and of sessions, and what other tests share: inputs, and readers, writers and
//! allocators that fail.
#![tactic(auto)]

#[cfg(test)]
mod asks_for_no_room;
#[cfg(test)]
mod assertions;
#[cfg(test)]
mod callers;
#[cfg(test)]
mod capture_reader;
#[cfg(test)]
mod captures;
#[cfg(test)]
mod counts;
#[cfg(test)]
mod empty_records;
pub mod fault_injection;
pub mod files;
pub mod inputs;
#[cfg(test)]
mod long_steps;
#[cfg(test)]
mod machine;
#[cfg(test)]
mod machine_trail;
#[cfg(test)]
mod mixes;
#[cfg(test)]
mod outsiders;
#[cfg(test)]
mod programs;
#[cfg(test)]
mod sessions;
#[cfg(test)]
mod stop_dump;
pub mod two_packets;
#[cfg(test)]
mod ways;
