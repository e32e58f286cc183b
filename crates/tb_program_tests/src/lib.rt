//! The tests of `tb_program`.
#![tactic(auto)]

#[cfg(test)]
mod tests;
