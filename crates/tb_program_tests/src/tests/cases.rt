//! Scripts by name, each with what is written for it.

use super::{assert_both, assert_list, assert_run, joined};
use std::alloc::Global;
use std::process::Abort;
use std::sync::Wait;
use std::thread::Threads;
use std::time::Clock;

/// Each case is a line with who runs it and its name, then its script, `--` and the end of its line, and the output. `list`
/// or `run` runs it, or `both` if the schedule decides nothing.
const CASES: [&str; 33] = [
    "both empty_script\n--\nclock 0\n",
    "both first_run\npacket 0 129\naccount id=1 ledger=1 code=1\naccount id=2 ledger=1 code=1\n--\npacket 0 0 committed 0\nclock 2\naccount 1 1 0 0 0 0\naccount 2 2 0 0 0 0\n",
    "list two_submitters_joined\nlimit 4\npacket 0 129\naccount id=1 ledger=1 code=1\naccount id=2 ledger=1 code=1\npacket 1 129\naccount id=1 ledger=1 code=1\naccount id=3 code=1\n--\npacket 0 0 committed 0\npacket 1 0 committed 1 0:21 1:13\nclock 4\naccount 1 1 0 0 0 0\naccount 2 2 0 0 0 0\n",
    "both accounts_around_an_empty_packet\nlimit 4\npacket 0 129\naccount id=1 ledger=1 code=1\npacket 0 129\npacket 0 129\naccount id=2 ledger=1 code=1\n--\npacket 0 0 committed 0\npacket 0 1 committed 1\npacket 0 2 committed 2\nclock 2\naccount 1 1 0 0 0 0\naccount 2 2 0 0 0 0\n",
    "both full_batch_then_overflow\nlimit 4
packet 0 129
account id=1 ledger=1 code=1
account id=2 ledger=1 code=1
account id=3 ledger=1 code=1
account id=4 ledger=1 code=1
packet 0 129
account id=5 ledger=1 code=1
packet 0 129
account
account
account
account
account
packet 0 129
--\npacket 0 0 committed 0\npacket 0 1 committed 1\npacket 0 refused 3 TooMuchData\npacket 0 2 committed 2\nclock 5\naccount 1 1 0 0 0 0\naccount 2 2 0 0 0 0\naccount 3 3 0 0 0 0\naccount 4 4 0 0 0 0\naccount 5 5 0 0 0 0\n",
    "both open_packet_alone\nlimit 4\npacket 0 129\naccount id=1 ledger=1 code=1\npacket 0 129\naccount id=2 ledger=1 code=1 flags=1\npacket 0 129\naccount id=3 ledger=1 code=1\n--\npacket 0 0 committed 0\npacket 0 1 committed 1 0:2\npacket 0 2 committed 2\nclock 3\naccount 1 1 0 0 0 0\naccount 3 3 0 0 0 0\n",
    "both broken_chain\nlimit 4\npacket 0 129\naccount id=1 ledger=1 code=1 flags=1\naccount ledger=1 code=1 flags=1\naccount id=2 ledger=1 code=1\naccount id=3 ledger=1 code=1\n--\npacket 0 0 committed 0 0:1 1:6 2:1\nclock 4\naccount 3 4 0 0 0 0\n",
    "both broken_and_open_chain\nlimit 4\npacket 0 129\naccount id=1 ledger=1 code=1 flags=1\naccount ledger=1 code=1 flags=1\naccount id=2 ledger=1 code=1 flags=1\n--\npacket 0 0 committed 0 0:1 1:6 2:2\nclock 3\n",
    "both clock_exhausted\nclock 9223372036854775806\nlimit 4\npacket 0 129\naccount id=1 ledger=1 code=1\npacket 0 129\naccount id=2 ledger=1 code=1\n--\npacket 0 0 committed 0\npacket 0 1 committed 1 0:201\nclock 9223372036854775807\naccount 1 9223372036854775807 0 0 0 0\n",
    "both bad_account_fields\nlimit 4\npacket 0 129\naccount id=1 ledger=1 code=1 timestamp=5\naccount id=2 ledger=1 code=1 flags=6\naccount id=3 ledger=1 code=1 flags=16\n--\npacket 0 0 committed 0 0:3 1:8 2:5\nclock 3\n",
    "list lookup_script
packet 0 129
account id=1 ledger=1 code=1
account id=2 ledger=1 code=1
packet 0 130
transfer id=1 debit_account_id=1 credit_account_id=2 amount=30 ledger=1 code=1
packet 1 131
id 2
id 9
id 1
id 2
packet 1 131
hex 00
--
packet 0 0 committed 0
packet 0 1 committed 1
packet 1 0 committed 2 2:0:0:0:30 1:0:30:0:0 2:0:0:0:30
packet 1 refused 2 InvalidDataSize
clock 3
account 1 1 0 30 0 0
account 2 2 0 0 0 30
",
    "both lookups_alone
limit 4
packet 0 129
account id=1 ledger=1 code=1
packet 0 131
id 1
packet 0 131
id 1
packet 0 129
account id=2 ledger=1 code=1
--
packet 0 0 committed 0
packet 0 1 committed 1 1:0:0:0:0
packet 0 2 committed 2 1:0:0:0:0
packet 0 3 committed 3
clock 2
account 1 1 0 0 0 0
account 2 2 0 0 0 0
",
    "list shut_in_a_script
packet 0 129
account id=1 ledger=1 code=1
shut
packet 0 129
account id=2 ledger=1 code=1
--
packet 0 0 committed 0
shut
packet 0 1 shutdown
clock 1
account 1 1 0 0 0 0
",
    // The limit counts ids; a packet that isn't admitted is refused for that behind the Close too.
    "list refused_behind_shut\nlimit 1\nshut\npacket 0 131\nid 1\nid 2\npacket 0 131\nid 1\npacket 0 200\n--\nshut\npacket 0 refused 3 TooMuchData\npacket 0 0 shutdown\npacket 0 refused 1 InvalidOperation\nclock 0\n",
    // Eight ids make an event of 128 bytes, the lowest byte first: ids 1 to 8 are where an account has its id, its
    // balances, its user data and the rest. An account's line is eight ids.
    "both ids_are_bytes
packet 0 129
id 7
id 0
id 0
id 0
id 0
id 0
id 0
id 4294967297
packet 0 131
account id=7
--
packet 0 0 committed 0
packet 0 1 committed 1 7:0:0:0:0
clock 1
account 7 1 0 0 0 0
",
    "both chains_of_transfers_joined
limit 4
packet 0 129
account id=1 ledger=1 code=1
account id=2 ledger=1 code=1 flags=2
account id=3 ledger=1 code=1
packet 0 130
transfer id=1 debit_account_id=1 credit_account_id=2 amount=10 ledger=1 code=1 flags=1
transfer id=2 debit_account_id=2 credit_account_id=3 amount=10 ledger=1 code=1 flags=1
transfer id=3 debit_account_id=1 credit_account_id=3 amount=10 ledger=0 code=1
packet 0 130
transfer id=2 debit_account_id=2 credit_account_id=3 amount=10 ledger=1 code=1
--
packet 0 0 committed 0
packet 0 1 committed 1 0:1 1:1 2:19
packet 0 2 committed 2 0:54
clock 7
account 1 1 0 0 0 0
account 2 2 0 0 0 0
account 3 3 0 0 0 0
",
    "both timeout_overflows
clock 9223372036854775000
packet 0 129
account id=1 ledger=1 code=1
account id=2 ledger=1 code=1
packet 0 130
transfer id=1 debit_account_id=1 credit_account_id=2 amount=1 timeout=1 ledger=1 code=1 flags=2
--
packet 0 0 committed 0
packet 0 1 committed 1 0:53
clock 9223372036854775003
account 1 9223372036854775001 0 0 0 0
account 2 9223372036854775002 0 0 0 0
",
    "both moment_too_large\npulse 4611686018427387904\npulse 4611686018427387905\n--\npulse 0\npulse refused 12 MomentTooLarge\nclock 4611686018427387904\n",
    "run run_with_refusals
limit 4
packet 0 129
account id=1 ledger=1 code=1
account id=1 ledger=1 code=1
packet 0 200
pulse 4611686018427387905
--
packet 0 0 committed 0 1:21
packet 0 refused 1 InvalidOperation
pulse refused 12 MomentTooLarge
clock 2
account 1 1 0 0 0 0
",
    // The Close is no line of its own, and neither are the settings.
    "run shut_alone\nshut\n--\nclock 0\n",
    "run shut_after_settings\ncapacity 1\ncredit 1\nsubmitters 16\nshut\n--\nclock 0\n",
    "run settings_without_items\nclock 7\nsubmitters 1\n--\nclock 7\n",
    "run pulses_and_shut\npulse 5\npulse 4\nshut\n--\npulse 0\npulse 1\nclock 5\n",
    "run pulses_one_at_a_time\ncapacity 1\npulse 1\npulse 4611686018427387905\npulse 2\npulse 18446744073709551615\npulse 3\n--\npulse 0\npulse 1\npulse 2\npulse refused 12 MomentTooLarge\npulse refused 12 MomentTooLarge\nclock 3\n",
    // A fault's line is all that is written.
    "run fault_of_a_number\nsubmitters 1\npacket 1 129\n--\nfault 2 bad number\n",
    "run fault_of_a_field\npacket 0 129\naccount id=1 id=1\n--\nfault 2 bad field\n",
    "run fault_of_a_place\nshut\npulse 1\n--\nfault 2 out of place\n",
    "run fault_of_a_submitter\npacket 15 129\n--\nfault 1 bad number\n",
    "list submitter_out_of_bounds\nsubmitters 1\npacket 1 129\n--\nfault 2 bad number\n",
    "list most_digits\nclock 000000000000000000000000000000000000007--\nclock 7\n",
    "list too_many_digits\nclock 0000000000000000000000000000000000000007--\nfault 1 bad number\n",
    "list spaces_and_cases\n  clock   7  \n packet  1   200 \n account \n\n# between\nhex 0aFf--\npacket 1 refused 1 InvalidOperation\nclock 7\n",
    "list greatest_submitter\nclock 0\nsubmitters 16\npacket 15 255\n--\npacket 15 refused 1 InvalidOperation\nclock 0\n",
];

/// The packet of accounts 1 and 2, which have ledger and code 1.
const TWO_ACCOUNTS: &str =
    "packet 0 129\naccount id=1 ledger=1 code=1\naccount id=2 ledger=1 code=1\n";

/// Cases whose scripts follow `TWO_ACCOUNTS`.
const AFTER_TWO_ACCOUNTS: [&str; 10] = [
    "both post_then_void
packet 0 130
transfer id=1 debit_account_id=1 credit_account_id=2 amount=100 ledger=1 code=1 flags=2
packet 0 130
transfer id=2 amount=340282366920938463463374607431768211455 pending_id=1 flags=4
packet 0 130
transfer id=3 amount=0 pending_id=1 flags=8
--
packet 0 0 committed 0
packet 0 1 committed 1
packet 0 2 committed 2
packet 0 3 committed 3 0:33
clock 5
account 1 1 0 100 0 0
account 2 2 0 0 0 100
",
    "list late_post_then_pulse
packet 0 130
transfer id=1 debit_account_id=1 credit_account_id=2 amount=100 timeout=1 ledger=1 code=1 flags=2
pulse 1000000002
packet 0 130
transfer id=2 amount=340282366920938463463374607431768211455 pending_id=1 flags=4
pulse 0
--
packet 0 0 committed 0
packet 0 1 committed 1
pulse 2
packet 0 2 committed 3 0:35
pulse 4
clock 1000000003
account 1 1 0 0 0 0
account 2 2 0 0 0 0
",
    "list late_post_without_the_last_pulse
packet 0 130
transfer id=1 debit_account_id=1 credit_account_id=2 amount=100 timeout=1 ledger=1 code=1 flags=2
pulse 1000000002
packet 0 130
transfer id=2 amount=340282366920938463463374607431768211455 pending_id=1 flags=4
--
packet 0 0 committed 0
packet 0 1 committed 1
pulse 2
packet 0 2 committed 3 0:35
clock 1000000003
account 1 1 100 0 0 0
account 2 2 0 0 100 0
",
    "both overflowing_pending_sums
packet 0 130
transfer id=1 debit_account_id=1 credit_account_id=2 amount=340282366920938463463374607431768211455 ledger=1 code=1 flags=2
transfer id=2 debit_account_id=1 credit_account_id=2 amount=1 ledger=1 code=1 flags=2
transfer id=3 debit_account_id=1 credit_account_id=2 amount=1 ledger=1 code=1
--
packet 0 0 committed 0
packet 0 1 committed 1 1:47 2:51
clock 5
account 1 1 340282366920938463463374607431768211455 0 0 0
account 2 2 0 0 340282366920938463463374607431768211455 0
",
    "both repeated_post
packet 0 130
transfer id=1 debit_account_id=1 credit_account_id=2 amount=100 ledger=1 code=1 flags=2
transfer id=2 amount=40 pending_id=1 flags=4
transfer id=2 amount=40 pending_id=1 flags=4
transfer id=2 amount=340282366920938463463374607431768211455 pending_id=1 flags=4
--
packet 0 0 committed 0
packet 0 1 committed 1 2:46 3:39
clock 6
account 1 1 0 40 0 0
account 2 2 0 0 0 40
",
    "both transfer_refusals
packet 0 130
transfer id=1 debit_account_id=1 credit_account_id=2 amount=30 ledger=1 code=1
transfer id=1 debit_account_id=1 credit_account_id=2 amount=30 ledger=1 code=1
transfer id=2 debit_account_id=1 credit_account_id=1 amount=1 ledger=1 code=1
transfer id=3 debit_account_id=1 credit_account_id=9 amount=1 ledger=1 code=1
transfer id=0 debit_account_id=1 credit_account_id=2 amount=1 ledger=1 code=1
--
packet 0 0 committed 0
packet 0 1 committed 1 1:46 2:12 3:22 4:5
clock 7
account 1 1 0 30 0 0
account 2 2 0 0 0 30
",
    "list expiry_void_and_untimed
packet 0 130
transfer id=1 debit_account_id=1 credit_account_id=2 amount=100 timeout=1 ledger=1 code=1 flags=2
transfer id=2 debit_account_id=1 credit_account_id=2 amount=50 timeout=1 ledger=1 code=1 flags=2
transfer id=3 debit_account_id=1 credit_account_id=2 amount=7 ledger=1 code=1 flags=2
packet 0 130
transfer id=4 amount=0 pending_id=2 flags=8
pulse 2000000000
--
packet 0 0 committed 0
packet 0 1 committed 1
packet 0 2 committed 2
pulse 3
clock 2000000000
account 1 1 7 0 0 0
account 2 2 0 0 7 0
",
    "list expiry_order
packet 0 130
transfer id=1 debit_account_id=1 credit_account_id=2 amount=10 timeout=2 ledger=1 code=1 flags=2
transfer id=2 debit_account_id=1 credit_account_id=2 amount=20 timeout=1 ledger=1 code=1 flags=2
transfer id=3 debit_account_id=1 credit_account_id=2 amount=30 timeout=1 ledger=1 code=1 flags=2
packet 0 130
transfer id=4 amount=340282366920938463463374607431768211455 pending_id=2 flags=5
transfer id=0 debit_account_id=1 credit_account_id=2 ledger=1 code=1
pulse 1000000004
--
packet 0 0 committed 0
packet 0 1 committed 1
packet 0 2 committed 2 0:1 1:5
pulse 3
clock 1000000004
account 1 1 40 0 0 0
account 2 2 0 0 40 0
",
    "list expiry_order_to_the_nanosecond
packet 0 130
transfer id=1 debit_account_id=1 credit_account_id=2 amount=10 timeout=2 ledger=1 code=1 flags=2
transfer id=2 debit_account_id=1 credit_account_id=2 amount=20 timeout=1 ledger=1 code=1 flags=2
transfer id=3 debit_account_id=1 credit_account_id=2 amount=30 timeout=1 ledger=1 code=1 flags=2
packet 0 130
transfer id=4 amount=340282366920938463463374607431768211455 pending_id=2 flags=5
transfer id=0 debit_account_id=1 credit_account_id=2 ledger=1 code=1
pulse 1000000004
pulse 1000000005
--
packet 0 0 committed 0
packet 0 1 committed 1
packet 0 2 committed 2 0:1 1:5
pulse 3
pulse 4
clock 1000000005
account 1 1 10 0 0 0
account 2 2 0 0 10 0
",
    "both id_already_failed
packet 0 130
transfer id=1 debit_account_id=1 credit_account_id=2 amount=5 ledger=1 code=1 flags=1
transfer id=2 debit_account_id=1 credit_account_id=9 amount=5 ledger=1 code=1
packet 0 130
transfer id=1 debit_account_id=1 credit_account_id=2 amount=5 ledger=1 code=1
transfer id=2 debit_account_id=1 credit_account_id=2 amount=5 ledger=1 code=1
packet 0 130
transfer id=3 amount=340282366920938463463374607431768211455 pending_id=8 flags=4
packet 0 130
transfer id=3 debit_account_id=1 credit_account_id=2 amount=1 ledger=1 code=1
transfer id=2 debit_account_id=1 credit_account_id=2 amount=1 ledger=1 code=1 flags=6
--
packet 0 0 committed 0
packet 0 1 committed 1 0:1 1:22
packet 0 2 committed 2 1:68
packet 0 3 committed 3 0:25
packet 0 4 committed 4 0:68 1:68
clock 9
account 1 1 0 5 0 0
account 2 2 0 0 0 5
",
];

/// Asserts the output of a case whose script follows a setup.
fn assert_case<R: Abort + Threads + Wait + Clock + Sync + Alloc<A = Global>>(
    rt: &R,
    setup: &str,
    case: &str,
) {
    let (head, texts) = case.split_once('\n').expect(rt, "a name");
    let (script, output) = texts
        .split_once("--\n")
        .expect(rt, "a script and an output");
    let script = joined(rt, &[setup, script]);
    match head.split_once(' ') {
        Some(("list", _)) => assert_list(rt, script.as_str(), output),
        Some(("run", _)) => assert_run(rt, script.as_str(), output),
        _ => assert_both(rt, script.as_str(), output),
    }
}

#[test]
fn cases(rt: HostRuntime) {
    for case in CASES.iter() {
        assert_case(&rt, "", case);
    }
}

#[test]
fn cases_after_two_accounts(rt: HostRuntime) {
    for case in AFTER_TWO_ACCOUNTS.iter() {
        assert_case(&rt, TWO_ACCOUNTS, case);
    }
}
