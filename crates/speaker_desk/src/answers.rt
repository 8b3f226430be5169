//! The words of answers.

use bgp_conf::{Action, Command, PEER_SLOTS, Refusal, Rule};
use line_causes::{OPERATOR_LINES, cause_of};
use speaker::Report;
use std::alloc::Global;
use std::io::{self, Write};

/// Says that a command was obeyed. Where memory was wanting, sessions are named that were closed for it; of a policy it is told
/// what it makes of routes now.
pub(crate) fn say_done(
    page: &mut Vec<u8>,
    command: &Command<'_>,
    report: &Report,
) -> io::Result<()> {
    write!(page, "ok")?;
    say_starved(page, report)?;
    if let Command::SetPolicy(name, rules) = command {
        say_policy(page, name, rules)?;
    }
    writeln!(page, "")
}

fn say_starved(page: &mut Vec<u8>, report: &Report) -> io::Result<()> {
    if report.starved != 0 {
        write!(page, " starved")?;
    }
    for slot in 0..PEER_SLOTS {
        if (report.starved >> slot) & 1 == 1 {
            write!(page, " {slot}")?;
        }
    }
    Ok(())
}

// Says how many rules a policy has, and what becomes of routes that none of them matches.
fn say_policy(page: &mut Vec<u8>, name: &str, rules: &[Rule]) -> io::Result<()> {
    let count = rules.len();
    write!(page, " policy {name}: rules {count}, ")?;
    page.write_all(rest_of(rules).as_bytes())
}

fn rest_of(rules: &[Rule]) -> &'static str {
    if !rules.iter().any(|rule| accepts(rule)) {
        return "it rejects every route";
    }
    "what no rule matches is rejected"
}

fn accepts(rule: &Rule) -> bool {
    rule.action != Action::Reject
}

/// Says why a command was refused.
pub(crate) fn say_refused(page: &mut Vec<u8>, refusal: Refusal) -> io::Result<()> {
    let number = refusal.number();
    writeln!(page, "refused {number} {refusal}")
}

/// Says that a slot has no peer.
pub(crate) fn say_no_peer(page: &mut Vec<u8>, slot: u8) -> io::Result<()> {
    let number = Refusal::BadSlot.number();
    writeln!(page, "refused {number} slot {slot} has no peer")
}

/// Says that a line is none, and why, as far as there is memory to find out.
pub(crate) fn say_bad_line(alloc: Global, page: &mut Vec<u8>, text: &str) -> io::Result<()> {
    if text.is_empty() {
        return writeln!(page, "bad line");
    }
    match cause_of(alloc, text, &OPERATOR_LINES) {
        Ok(Some(cause)) => writeln!(page, "bad line: {cause}"),
        Ok(None) | Err(_) => writeln!(page, "bad line"),
    }
}
