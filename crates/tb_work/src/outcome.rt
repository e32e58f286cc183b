use tb_layout::Answer;

/// What became of a packet: committed at a place among the committed packets and pulses, counted from 0; queued behind
/// the Close; or stopped with the pipeline.
#[derive(Debug, Drop)]
pub enum Outcome {
    Committed { place: u64, answer: Answer },
    Shutdown,
    Stopped,
}
