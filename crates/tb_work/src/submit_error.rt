//! A refused packet as an error.

use crate::packet::Packet;
use crate::refusal::Refusal;
use std::error::Error;
use std::fmt;
use std::fmt::{Display, Formatter};

/// A refused packet, as it was handed in, and why it was refused. A call that refuses a packet returns both as a pair, of
/// which `?` makes this error; `submit(..).map_err(SubmitError::from)?` passes it on as an error of another type.
#[derive(Debug, Drop)]
pub struct SubmitError {
    pub packet: Packet,
    pub refusal: Refusal,
}

impl Display for SubmitError {
    /// Writes the packet's user word and why it was refused.
    fn fmt<W: fmt::Write>(&self, f: &mut Formatter<W>) -> fmt::Result {
        let user = self.packet.user;
        let refusal = self.refusal;
        write!(f, "the packet with user word {user} was refused: {refusal}")
    }
}

impl Error for SubmitError {}

impl From<(Packet, Refusal)> for SubmitError {
    ghost use Rattle.std.specs.Prelude.{◌≡◌};

    ghost from_gives = { λ refused given. given ≡ record { packet = refused.0; refusal = refused.1 } };

    fn from(refused: (Packet, Refusal)) -> SubmitError {
        let (packet, refusal) = refused;
        SubmitError { packet, refusal }
    }
}
