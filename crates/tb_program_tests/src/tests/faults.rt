use super::{assert_list, joined};
use std::alloc::Global;
use std::process::Abort;

/// Scripts, each after the line and the kind of its first fault. A `|` stands for the end of a line.
const FIRST_FAULTS: &str = "2 bad field: packet 0 129|account id=1 id=1|
1 bad number: limit 0|
2 bad hex: packet 0 129|hex 0|
1 out of place: account id=1|
4 wrong number of words: # comment||   |clock|
2 wrong number of words:  # no comment in front|clock 1 2|
1 unknown word: clok 1
1 bad number: clock #1|
1 bad byte: clock\t1
1 bad byte: clock 1\r|
1 bad byte: # \u{7f}
1 bad number: limit +1
1 bad number: limit 1_0
2 wrong number of words: packet 0 129|hex|
2 bad hex: packet 0 129|hex 0g|
2 wrong number of words: packet 0 129|hex 00 00|
1 out of place: hex 00|
1 wrong number of words: packet 0|
1 wrong number of words: packet 0 129 1|
1 bad number: packet x y|
1 bad number: packet 2 129|
1 bad number: packet 0 256|
2 bad number: packet 0 129|account id=x foo
2 bad field: packet 0 129|account id=1 id=x
2 bad number: packet 0 129|account id=1=1
2 bad number: packet 0 129|account id=
2 bad field: packet 0 129|account =1
2 bad field: packet 0 129|account amount=1
2 bad field: packet 0 129|account id
2 bad field: packet 0 130|transfer debits_posted=1|
2 bad field: packet 0 130|transfer amount=1 amount=1|
2 bad number: packet 0 130|transfer timeout=4294967296|
1 out of place: transfer amount=1|
2 out of place: pulse 1|transfer|
2 out of place: pulse 1|clock 1|
1 wrong number of words: pulse|
1 wrong number of words: pulse 1 2|
1 bad number: pulse x|
1 bad number: pulse 18446744073709551616|
1 wrong number of words: shut 1|
2 out of place: shut|shut|
2 out of place: shut|pulse 1|
3 out of place: shut|packet 0 129|pulse 1|
2 out of place: shut|clock 1|
2 out of place: shut|account|
3 out of place: packet 0 129|shut|id 1|
1 out of place: id 1|
2 out of place: pulse 1|id 1|
2 wrong number of words: packet 0 131|id|
2 wrong number of words: packet 0 131|id 1 2|
2 bad number: packet 0 131|id x|
2 bad number: packet 0 131|id 340282366920938463463374607431768211456|
";

/// Asserts the first fault of a script, in which a `|` stands for the end of a line.
fn assert_fault(rt: &(impl Abort + Alloc<A = Global>), script: &str, fault: &str) {
    let script = script.replace(rt.alloc(), '|', "\n").expect(rt, "memory");
    let output = joined(rt, &["fault ", fault, "\n"]);
    assert_list(rt, script.as_str(), output.as_str());
}

fn assert_faults(rt: &(impl Abort + Alloc<A = Global>), rows: &str) {
    for row in rows.lines() {
        let (fault, script) = row.split_once(": ").expect(rt, "a fault and a script");
        assert_fault(rt, script, fault);
    }
}

#[test]
fn first_faults(rt: HostRuntime) {
    assert_faults(&rt, FIRST_FAULTS);
}

/// A setting doesn't come twice, nor after a packet.
const MISPLACED_SETTINGS: &str = "2 out of place: clock 1|clock 1|
2 out of place: limit 1|limit 1|
2 out of place: capacity 1|capacity 1|
2 out of place: credit 1|credit 1|
2 out of place: submitters 1|submitters 1|
2 out of place: packet 0 129|clock x y|
2 out of place: packet 0 129|limit x y|
2 out of place: packet 0 129|capacity x y|
2 out of place: packet 0 129|credit x y|
2 out of place: packet 0 129|submitters x y|
";

#[test]
fn settings_once_and_first(rt: HostRuntime) {
    assert_faults(&rt, MISPLACED_SETTINGS);
}

/// Each setting with the number above the greatest, and with the greatest, where the fault is that of the line after
/// it; and those that can't be 0.
const BOUNDS: &str = "1 bad number: clock 9223372036854775808|
1 bad number: limit 8191|
1 bad number: capacity 65537|
1 bad number: credit 65537|
1 bad number: submitters 17|
2 unknown word: clock 9223372036854775807|foo|
2 unknown word: limit 8190|foo|
2 unknown word: capacity 65536|foo|
2 unknown word: credit 65536|foo|
2 unknown word: submitters 16|foo|
1 bad number: limit 0|
1 bad number: capacity 0|
1 bad number: credit 0|
1 bad number: submitters 0|
";

#[test]
fn bounds(rt: HostRuntime) {
    assert_faults(&rt, BOUNDS);
}

/// Fields with the greatest number, and that above.
const FIELD_BOUNDS: [(&str, &str, &str); 4] = [
    (
        "id",
        "340282366920938463463374607431768211455",
        "340282366920938463463374607431768211456",
    ),
    (
        "user_data_64",
        "18446744073709551615",
        "18446744073709551616",
    ),
    ("user_data_32", "4294967295", "4294967296"),
    ("code", "65535", "65536"),
];

/// Asserts what is written if a field of an account has this number. The packet is of no operation.
fn assert_field(rt: &(impl Abort + Alloc<A = Global>), field: &str, number: &str, output: &str) {
    let script = joined(rt, &["packet 0 200\naccount ", field, "=", number, "\n"]);
    assert_list(rt, script.as_str(), output);
}

#[test]
fn field_bounds(rt: HostRuntime) {
    for (field, most, over) in FIELD_BOUNDS.iter() {
        assert_field(&rt, field, over, "fault 2 bad number\n");
        let refused = "packet 0 refused 1 InvalidOperation\nclock 0\n";
        assert_field(&rt, field, most, refused);
    }
}

/// Asserts that a line may be as long as this one, and no longer.
fn assert_longest(rt: &(impl Abort + Alloc<A = Global>), line: &str) {
    let lawful = joined(rt, &[line, "\nclock 3"]);
    assert_list(rt, lawful.as_str(), "clock 3\n");
    let faulty = joined(rt, &["clock 3\n#", line, "\n"]);
    assert_list(rt, faulty.as_str(), "fault 2 line too long\n");
}

#[test]
fn line_lengths(rt: HostRuntime) {
    let line = "#".repeat(rt.alloc(), 65536).expect(&rt, "memory");
    assert_longest(&rt, line.as_str());
}
