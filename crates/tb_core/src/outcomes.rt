use tb_demux::Cutter;
use tb_work::Reply;

/// What a parcel yields: the replies to a batch's packets, the reply to a returned packet, nothing for a pulse, or the
/// end.
#[derive(Drop)]
pub enum Outcomes {
    Cut(Cutter),
    One(Reply),
    Nothing,
    Last,
}
