//! The tests of tb_rings, tb_submit, tb_drive, tb_blocking, tb_pipe and tb_figures, in a crate of their own so that those aren't proved twice.
//! Among them are whole runs whose senders note all that they see.
#![tactic(auto)]

#[cfg(test)]
mod tests;
