use crate::remaining_failures::RemainingFailures;
use tb_work::Outcome;

/// Where the replies still to come have their outcomes from.
#[derive(Drop)]
pub(crate) enum ReplySource {
    Failures(RemainingFailures),
    Lookup(Outcome),
    Shutdown,
    Stopped,
}
