//! Tests of calls of the library whose answers no run of the program shows. There is nothing else here.
#![tactic(auto)]

#[cfg(test)]
mod tests;
