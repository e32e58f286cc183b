use crate::batch::Batch;
use tb_layout::NoMemory;
use tb_work::Job;

/// The result of offering a job. It joined the group held or began one; or the group held was sealed and the job is the
/// new group; or an allocation failed and nothing changed.
#[derive(Drop)]
pub enum Offered {
    Joined,
    Sealed(Batch),
    Refused(Job, NoMemory),
}
