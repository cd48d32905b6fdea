//! Tests of `why` and of the program, and of readers, writers and allocators that fail.
#![tactic(auto)]

#[cfg(test)]
mod assembling;
#[cfg(test)]
mod assertions;
#[cfg(test)]
mod beginnings;
mod done;
#[cfg(test)]
mod failing_files;
#[cfg(test)]
mod failing_input;
#[cfg(test)]
mod failing_writes;
#[cfg(test)]
mod memory_host;
#[cfg(test)]
mod outsiders;
#[cfg(test)]
mod shown;
#[cfg(test)]
mod waiting;
#[cfg(test)]
mod why;
