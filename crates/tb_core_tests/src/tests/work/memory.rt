use crate::tests::must;
use tb_layout::{Account, NoMemory, Transfer};
use tb_test_makers::zeros;
use tb_work::{Job, Packet, Refusal};

/// What is tried with each allocation refused in turn, by `tools/gate/refuse-each-growth`. The room for four failures isn't
/// in the job.
#[test]
fn job_refused_memory(rt: HostRuntime) {
    let Ok(packet) = zeros(rt.alloc(), 129, 512) else {
        return;
    };
    if let Err((packet, refusal)) = Job::new(rt.alloc(), 0, 0, 4, packet) {
        must(&rt, refusal == Refusal::NoMemory);
        must(
            &rt,
            packet.user == 7 && packet.bytes.as_slice().len() == 512,
        );
    }
}

#[test]
fn packet_of_accounts_refused_memory(rt: HostRuntime) {
    match Packet::of_accounts(rt.alloc(), &[Account::default()], 7) {
        Ok(packet) => must(&rt, packet.bytes.as_slice().len() == 128),
        Err(refused) => must(&rt, refused == NoMemory),
    }
}

#[test]
fn packet_of_transfers_refused_memory(rt: HostRuntime) {
    match Packet::of_transfers(rt.alloc(), &[Transfer::default()], 7) {
        Ok(packet) => must(&rt, packet.bytes.as_slice().len() == 128),
        Err(refused) => must(&rt, refused == NoMemory),
    }
}
