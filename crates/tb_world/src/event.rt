use tb_work::Ticket;

/// One push or one pop: on the queue, on the batch ring, on the outcome ring, or on a submitter's reply ring. `refused`
/// says that the allocation in this step fails; it has no effect if the step takes no packet into a group and commits
/// nothing.
#[derive(Drop)]
pub enum Event {
    Push(Ticket),
    Pop { refused: bool },
    BatchPush,
    BatchPop { refused: bool },
    OutcomePush,
    OutcomePop,
    ReplyPush,
    ReplyPop { sender: u32 },
}
