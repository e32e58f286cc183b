//! Packets, their admission, jobs and replies.

mod admission;
mod calls;
mod memory;
mod packets;
mod printed;
mod sizes;
