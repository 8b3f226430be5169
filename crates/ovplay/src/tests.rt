//! Each text of `ovplay` with its exit status.

use crate::play_main::main_play;
use live_book::LiveBook;
use scenario::{PlayFault, play};
use std::alloc::AllocGlobal;
use std::io::{self, BufRead, BufReader, ErrorKind, Read};
use std::test::Fail;

// Scripts with the exit status, and with what is printed: the answers, and the errors behind them.
#[rattlefmt::skip]
const SCRIPTS: [(&str, u8, &str); 5] = [
    ("", 0, ""),
    ("# nothing\n\nspeaker 65000 192.0.2.1 nocache\nshow rib", 0, "ok\nend\n"),
    ("speaker 65000 192.0.2.1 nocache\n\nenable 0\nno line\n", 1, "ok\nrefused 40\novplay: line 4: bad line: the line is none of a script\n"),
    ("show rib\n", 1, "ovplay: line 1: bad line: the line is none of a script\n"),
    ("cache 7 3600 600 7200\nload\n", 1, "ok\novplay: line 2: bad line: the line is none of a script\n"),
];

// Whether what is printed is the output, and the errors behind it.
fn is_both(output: &[u8], errors: &[u8], printed: &[u8]) -> bool {
    printed.get(..output.len()) == Some(output) && printed.get(output.len()..) == Some(errors)
}

// Whether the script leads to this status, and to what is printed.
fn ends<R: AllocGlobal, I: BufRead + Drop>(
    rt: &R,
    words: &[String],
    script: I,
    status: u8,
    printed: &str,
) -> bool {
    let mut output = Vec::new(rt.alloc());
    let mut errors = Vec::new(rt.alloc());
    let ended = main_play(rt, words, script, &mut output, &mut errors);
    ended == status && is_both(output.as_slice(), errors.as_slice(), printed.as_bytes())
}

#[test]
fn scripts_are_told(rt: HostRuntime) -> Result<(), Fail> {
    for (script, status, printed) in &SCRIPTS {
        assert!(rt;
            ends(&rt, &[], script.as_bytes(), *status, printed),
            "{script}"
        );
    }
    Ok(())
}

#[test]
fn words_are_arguments(rt: HostRuntime) -> Result<(), Fail> {
    let words = [String::from_str(rt.alloc(), "script")?];
    let script = "show rib\n".as_bytes();
    assert!(rt;
        ends(
            &rt,
            &words,
            script,
            1,
            "ovplay: arguments: it takes none but --help or --version, and its script on the input\n"
        )
    );
    Ok(())
}

// A device that gives its octets, and then fails.
#[derive(Drop)]
struct Failing<'a> {
    octets: &'a [u8],
}

impl Read for Failing<'_> {
    fn read(&mut self, buf: &mut [u8]) -> io::Result<usize> {
        if self.octets.is_empty() {
            return Err(io::Error::from(ErrorKind::BrokenPipe));
        }
        self.octets.read(buf)
    }
}

#[test]
fn a_failing_input_is_told(rt: HostRuntime) -> Result<(), Fail> {
    let octets = "speaker 65000 192.0.2.1 nocache\nshow r".as_bytes();
    let input = BufReader::new(rt.alloc(), Failing { octets })?;
    assert!(rt;
        ends(
            &rt,
            &[],
            input,
            2,
            "ok\novplay: device: the input or the output fails\n"
        )
    );
    Ok(())
}

// Whether the script leads to this status and these errors, where the output takes so many octets.
fn ends_with_room<R: AllocGlobal>(
    rt: &R,
    script: &str,
    room: &mut [u8],
    status: u8,
    told: &str,
) -> bool {
    let mut output = room;
    let mut errors = Vec::new(rt.alloc());
    let ended = main_play(rt, &[], script.as_bytes(), &mut output, &mut errors);
    ended == status && errors.as_slice() == told.as_bytes()
}

#[test]
fn a_failing_output_is_told(rt: HostRuntime) -> Result<(), Fail> {
    let script = "speaker 65000 192.0.2.1 nocache\nshow rib\n";
    // Three octets fit, and the first answer takes all of them.
    assert!(rt;
        ends_with_room(
            &rt,
            script,
            &mut [0; 3],
            2,
            "ovplay: device: the input or the output fails\n"
        )
    );
    Ok(())
}

// The answer is `ok` and a line feed.
#[test]
fn a_writer_without_room_is_a_device_fault(rt: HostRuntime) {
    let script: &[u8] = b"speaker 65000 192.0.2.1 nocache";
    let mut octets = [0u8; 2];
    let mut room = octets.as_mut_slice();
    assert_eq!(rt;
        play::<LiveBook, _, _>(rt.alloc(), script, &mut room),
        Err(PlayFault::Device)
    );
    let mut octets = [0u8; 3];
    let mut room = octets.as_mut_slice();
    assert_eq!(rt;
        play::<LiveBook, _, _>(rt.alloc(), script, &mut room),
        Ok(())
    );
}
