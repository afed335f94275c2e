//! Lines of an archive.
use archive_lines::{Answer, Fields, LineRead, Unread, push_json_line, push_tab_line};
use engine_stages::GameFault;
use game_case::{Entry, Finding};
use game_exits::exit_of_answer;
use game_turns::RuleFault;
use gcg_about::Encoding;
use gcg_read::{ReadFault, Record, Why};
use std::alloc::Global;
use std::process::Abort;

/// The line of these fields, in both forms.
fn lines_of(rt: &impl Abort, alloc: Global, fields: &Fields<'_>) -> (Vec<u8>, Vec<u8>) {
    let mut tabs = Vec::new(alloc);
    push_tab_line(&mut tabs, fields).expect(rt, "a line");
    let mut object = Vec::new(alloc);
    push_json_line(alloc, &mut object, fields).expect(rt, "an object");
    (tabs, object)
}

#[test]
fn statuses_of_answers(rt: HostRuntime) {
    let rows: [(Answer, u8); 6] = [
        (Answer::Legal, 0),
        (Answer::Illegal, 1),
        (Answer::Unsettled, 2),
        (Answer::BadRecord, 3),
        (Answer::NoGame, 3),
        (Answer::Unread, 4),
    ];
    for (answer, status) in rows {
        assert_eq!(rt; exit_of_answer(answer).status(), status);
        for (other, other_status) in rows {
            let worse = exit_of_answer(answer).worse(exit_of_answer(other));
            assert_eq!(rt; worse.status(), status.max(other_status));
        }
    }
}

#[test]
fn lines_without_an_entry(rt: HostRuntime) {
    let why = ReadFault {
        line: 0,
        why: Why::TooLong,
    };
    let rows: [(Fields<'_>, &str, &str); 4] = [
        (
            Fields::unread("a", Unread::CannotOpen),
            "a\tunread\t-\t-\tcannot open\t-\t-\t-\t-\t-\t-\t-\n",
            "{\"name\":\"a\",\"verdict\":\"unread\",\"ending\":null,\"line\":null,\"fault\":\"cannot open\",\"events\":null,\"player1\":null,\"total1\":null,\"player2\":null,\"total2\":null,\"unlisted\":null,\"fault_name\":null,\"expected\":null,\"unread_lines\":null}\n",
        ),
        (
            Fields::unread("a", Unread::IsFolder),
            "a\tunread\t-\t-\tis a folder\t-\t-\t-\t-\t-\t-\t-\n",
            "{\"name\":\"a\",\"verdict\":\"unread\",\"ending\":null,\"line\":null,\"fault\":\"is a folder\",\"events\":null,\"player1\":null,\"total1\":null,\"player2\":null,\"total2\":null,\"unlisted\":null,\"fault_name\":null,\"expected\":null,\"unread_lines\":null}\n",
        ),
        (
            Fields::unread("a", Unread::ReadFailed),
            "a\tunread\t-\t-\tread failed\t-\t-\t-\t-\t-\t-\t-\n",
            "{\"name\":\"a\",\"verdict\":\"unread\",\"ending\":null,\"line\":null,\"fault\":\"read failed\",\"events\":null,\"player1\":null,\"total1\":null,\"player2\":null,\"total2\":null,\"unlisted\":null,\"fault_name\":null,\"expected\":null,\"unread_lines\":null}\n",
        ),
        (
            Fields::bad_record("a\t\"", &why),
            "a\\t\"\tbad record\t-\t-\tTooLong\t-\t-\t-\t-\t-\t-\t-\n",
            "{\"name\":\"a\\t\\\"\",\"verdict\":\"bad record\",\"ending\":null,\"line\":null,\"fault\":\"TooLong\",\"events\":null,\"player1\":null,\"total1\":null,\"player2\":null,\"total2\":null,\"unlisted\":null,\"fault_name\":\"TooLong\",\"expected\":null,\"unread_lines\":null}\n",
        ),
    ];
    for (fields, tabs, object) in rows {
        let reported = lines_of(&rt, rt.alloc(), &fields);
        assert_eq!(rt; reported.0.as_slice(), tabs.as_bytes(), "{tabs}");
        assert_eq!(rt; reported.1.as_slice(), object.as_bytes(), "{object}");
    }
}

/// What was found of a game, how many of its plays have a word that is not in the list, and its line.
const FINDINGS: [(Finding, Option<usize>, &str); 5] = [
    (
        Finding::Legal { complete: true },
        Some(0),
        "a\tlegal\tcomplete\t-\t-\t0\t-\t-\t-\t-\t0\t3\n",
    ),
    (
        Finding::Legal { complete: false },
        Some(2),
        "a\tlegal\tunfinished\t-\t-\t0\t-\t-\t-\t-\t2\t3\n",
    ),
    (
        Finding::Illegal {
            line: 7,
            fault: GameFault::Rule(RuleFault::WrongScore(16)),
        },
        None,
        "a\tillegal\t-\t7\tWrongScore 16\t0\t-\t-\t-\t-\t-\t3\n",
    ),
    (
        Finding::Unsettled,
        Some(1),
        "a\tunsettled\t-\t-\t-\t0\t-\t-\t-\t-\t1\t3\n",
    ),
    (
        Finding::NoGame,
        Some(0),
        "a\tno game\t-\t-\t-\t0\t-\t-\t-\t-\t0\t3\n",
    ),
];

#[test]
fn lines_of_findings(rt: HostRuntime) {
    for (finding, unlisted, want) in FINDINGS {
        let entry = Entry {
            record: Record::empty(rt.alloc()),
            finding,
            unlisted,
        };
        let fields = Fields::of_entry(rt.alloc(), "a", &entry, Encoding::Utf8, 3).expect(
            &rt, "fields",
        );
        let reported = lines_of(&rt, rt.alloc(), &fields);
        assert_eq!(rt; reported.0.as_slice(), want.as_bytes(), "{want}");
    }
}

#[test]
fn lines_that_are_read(rt: HostRuntime) {
    let rows: [(&str, bool); 15] = [
        ("a\tlegal\tcomplete\t-\t-\t0\t-\t-\t-\t-\t0\t3", true),
        (
            "a\tlegal\tcomplete\t-\t-\t0\tA\t-7\t-\t-\t0\ta.html\t3",
            true,
        ),
        (
            "a\tlegal\tcomplete\t-\t-\t0\t-\t-\t-\t-\t0\ta.html\t-\t-\t3",
            true,
        ),
        ("a\tlegal\tcomplete\t-\t-\t0\t-\t-\t-\t-\t0", true),
        ("a\tlegal\tcomplete\t-\t-\t0\tA\t-7\t-\t-\t0\ta.html", true),
        ("", false),
        ("a", false),
        ("a\tlawful\tcomplete\t-\t-\t0\t-\t-\t-\t-\t0", false),
        ("a\tlegal\tcomplete\tx\t-\t0\t-\t-\t-\t-\t0", false),
        ("a\tlegal\tcomplete\t-\t-\t0\t-\t-\t-\t-\t", false),
        ("a\tlegal\tcomplete\t-\t-\t0\t-\t-\t-\t-\t0\t-\t-", true),
        (
            "a\tlegal\tcomplete\t-\t-\t0\t-\t-\t-\t-\t0\ta.html\t-\t-",
            true,
        ),
        (
            "a\tlegal\tcomplete\t-\t-\t0\t-\t-\t-\t-\t0\ta\tb\tc\td\te",
            false,
        ),
        ("{}", false),
        ("{\"name\":\"a\"", false),
    ];
    for (line, is_line) in rows {
        let read = LineRead::of(rt.alloc(), line.as_bytes()).expect(&rt, "memory");
        assert_eq!(rt; read.is_some(), is_line, "{line}");
    }
}

#[test]
fn names_that_are_read(rt: HostRuntime) {
    for name in ["a.gcg", "a\tb", "a\nb", "a\\tb", "\\\t\n\u{e9}", ""] {
        let reported = lines_of(&rt, rt.alloc(), &Fields::unread(name, Unread::CannotOpen));
        for line in [reported.0.as_slice(), reported.1.as_slice()] {
            let read = LineRead::of(rt.alloc(), line.trim_ascii_end()).expect(&rt, "memory");
            let read = read.expect(&rt, "a line");
            assert_eq!(rt; read.name.as_str(), name, "{name}");
        }
    }
}
