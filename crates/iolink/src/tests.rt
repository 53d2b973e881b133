//! What the commands for ISDUs print, in the transcript and in words, and what is said of words
//! that are none.
use crate::explain::Explained;
use crate::outcome::Outcome;
use crate::session::Session;
use std::alloc::Global;
use std::test::Fail;

// A line of a script, what the transcript has for it, and what `--explain` adds. The octets are
// those of the rules, computed apart from this program.
struct Case {
    line: &'static str,
    printed: &'static str,
    explained: &'static str,
}

const CASES: [Case; 30] = [
    Case {
        line: "encode write 24 0 4137",
        printed: "151841377B",
        explained: "    asks        write index 24, subindex 0: 4137\n",
    },
    Case {
        line: "encode read 16 0",
        printed: "931083",
        explained: "    asks        read index 16, subindex 0\n",
    },
    Case {
        line: "request 151841377B",
        printed: "write 24 0 4137",
        explained: "    asks        write index 24, subindex 0: 4137\n",
    },
    Case {
        line: "request 931083",
        printed: "read 16 0",
        explained: "    asks        read index 16, subindex 0\n",
    },
    Case {
        line: "response write 52",
        printed: "go on",
        explained: "    octets are still to come\n",
    },
    Case {
        line: "response write 5252",
        printed: "report written",
        explained: "    reply       written\n",
    },
    Case {
        line: "response read D54269",
        printed: "go on",
        explained: "    octets are still to come\n",
    },
    Case {
        line: "response read D542696E90",
        printed: "report read 42696E",
        explained: "    reply       read 42696E\n",
    },
    Case {
        line: "encode write 24 1 4137",
        printed: "261801413749",
        explained: "    asks        write index 24, subindex 1: 4137\n",
    },
    Case {
        line: "encode read 0x0102 3",
        printed: "B5010203B5",
        explained: "    asks        read index 258, subindex 3\n",
    },
    Case {
        line: "encode write 24 0 000102030405060708090A0B0C",
        printed: "111118000102030405060708090A0B0C14",
        explained: "    asks        write index 24, subindex 0: 000102030405060708090A0B0C\n",
    },
    Case {
        line: "request 111118000102030405060708090A0B0C14",
        printed: "write 24 0 000102030405060708090A0B0C",
        explained: "    asks        write index 24, subindex 0: 000102030405060708090A0B0C\n",
    },
    Case {
        line: "encode write 24 0 -",
        printed: "refused 9",
        explained: "    a write has 1 to 232 octets\n",
    },
    Case {
        line: "request -",
        printed: "incomplete",
        explained: "    octets are still to come\n",
    },
    Case {
        line: "request 151841",
        printed: "incomplete",
        explained: "    octets are still to come\n",
    },
    Case {
        line: "request 1018",
        printed: "bad total",
        explained: "    the first octets say a total that no ISDU has\n",
    },
    Case {
        line: "request 151841377C",
        printed: "not well formed",
        explained: "    the octets are all there, and are no request\n",
    },
    Case {
        line: "request 151841377B0000",
        printed: "write 24 0 4137",
        explained: "    asks        write index 24, subindex 0: 4137\n",
    },
    Case {
        line: "response write 448033F7",
        printed: "report refused 8033",
        explained: "    reply       refused 8033 (VAL_LENOVRRUN)\n",
    },
    Case {
        line: "response read C4801155",
        printed: "report refused 8011",
        explained: "    reply       refused 8011 (IDX_NOTAVAIL)\n",
    },
    Case {
        line: "response read D2D2",
        printed: "report read -",
        explained: "    reply       read -\n",
    },
    Case {
        line: "response write D5",
        printed: "report broken",
        explained: "    no reply of this kind can come of these octets\n",
    },
    Case {
        line: "response read D1EC",
        printed: "report broken",
        explained: "    no reply of this kind can come of these octets\n",
    },
    Case {
        line: "response write 5253",
        printed: "report broken",
        explained: "    no reply of this kind can come of these octets\n",
    },
    Case {
        line: "encode reed 16 0",
        printed: "error: 'reed' is neither write nor read",
        explained: "",
    },
    Case {
        line: "encode read 65536 0",
        printed: "error: index: '65536' is too large",
        explained: "",
    },
    Case {
        line: "encode read 16 256",
        printed: "error: subindex: '256' is too large",
        explained: "",
    },
    Case {
        line: "encode write 24 0",
        printed: "error: octets missing",
        explained: "",
    },
    Case {
        line: "response 5252",
        printed: "error: '5252' is neither write nor read",
        explained: "",
    },
    Case {
        line: "request 93108",
        printed: "error: octets: '93108' has an odd count of digits, and an octet has two",
        explained: "",
    },
];

#[test]
fn isdu_commands(rt: HostRuntime) -> Result<(), Fail> {
    let mut session = Session::new();
    for case in &CASES {
        let line = case.line;
        let (printed, explained) = match session.run_line(rt.alloc(), line.as_bytes()) {
            Ok(outcome) => shown(rt.alloc(), outcome)?,
            Err(problem) => (
                format!(in rt.alloc(); "error: {problem}")?,
                String::new(rt.alloc()),
            ),
        };
        assert_eq!(rt; printed.as_str(), case.printed, "at {line}");
        assert_eq!(rt; explained.as_str(), case.explained, "at {line}");
    }
    Ok(())
}

// What is printed for a line, and what is added in words; nothing for one with no command.
fn shown(alloc: Global, outcome: Option<Outcome>) -> Result<(String, String), Fail> {
    let Some(outcome) = outcome else {
        return Ok((String::new(alloc), String::new(alloc)));
    };
    let printed = format!(in alloc; "{outcome}")?;
    let explained = format!(in alloc; "{}", Explained(&outcome))?;
    Ok((printed, explained))
}
