//! Tests of the assembler and of what it stands on.
#![tactic(auto)]

#[cfg(test)]
mod assembler;
#[cfg(test)]
mod assertions;
#[cfg(test)]
mod checker;
#[cfg(test)]
mod grammar;
#[cfg(test)]
mod listing;
#[cfg(test)]
mod lists;
#[cfg(test)]
mod numbers;
#[cfg(test)]
mod plain_words;
#[cfg(test)]
mod random_lists;
#[cfg(test)]
mod shown;
#[cfg(test)]
mod tables;
#[cfg(test)]
mod tokens;
#[cfg(test)]
mod words;
#[cfg(test)]
mod writing;
