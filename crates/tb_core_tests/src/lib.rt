//! The tests of tb_tables up to tb_core, tb_world, tb_embed and tb_durable, in a crate of their own, so that those aren't proved
//! again with them.
#![tactic(auto)]

#[cfg(test)]
mod tests;
