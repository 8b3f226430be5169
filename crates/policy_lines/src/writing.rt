//! A policy's line.

use origin_valid::Validity;
use policy::{Action, Condition, PolicyName, PrefixRange, Rule};
use std::io::{self, Write};

/// Writes the line that sets a policy: `policy NAME RULE ; RULE ..`.
pub fn write_policy_line<W: Write>(
    name: PolicyName,
    rules: &[Rule],
    out: &mut W,
) -> io::Result<()> {
    write!(out, "policy {name}")?;
    let mut apart = " ";
    for rule in rules {
        out.write_all(apart.as_bytes())?;
        write_rule(rule, out)?;
        apart = " ; ";
    }
    writeln!(out, "")
}

fn write_rule<W: Write>(rule: &Rule, out: &mut W) -> io::Result<()> {
    write_condition(&rule.condition, out)?;
    match rule.action {
        Action::Reject => write!(out, "reject"),
        Action::Accept {
            degree,
            med,
            prepend,
        } => {
            write!(out, "accept")?;
            write_numbered(" degree ", degree, out)?;
            write_numbered(" med ", med, out)?;
            write_numbered(" prepend ", prepend.map(u32::from), out)
        }
    }
}

fn write_condition<W: Write>(condition: &Condition, out: &mut W) -> io::Result<()> {
    if let Some(range) = &condition.prefix {
        write_range(range, out)?;
    }
    if let Some(state) = condition.state {
        let word = state_word(state);
        write!(out, "state {word} ")?;
    }
    write_asn("origin", condition.origin.map(|asn| asn.0), out)?;
    write_asn("path", condition.path.map(|asn| asn.0), out)?;
    write_asn("from", condition.from.map(u32::from), out)
}

fn write_range<W: Write>(range: &PrefixRange, out: &mut W) -> io::Result<()> {
    let (prefix, from, to) = (range.prefix, range.from, range.to);
    write!(out, "prefix {prefix} {from} {to} ")
}

fn write_asn<W: Write>(word: &str, number: Option<u32>, out: &mut W) -> io::Result<()> {
    match number {
        Some(number) => write!(out, "{word} {number} "),
        None => Ok(()),
    }
}

fn write_numbered<W: Write>(word: &str, number: Option<u32>, out: &mut W) -> io::Result<()> {
    match number {
        Some(number) => write!(out, "{word}{number}"),
        None => Ok(()),
    }
}

fn state_word(state: Validity) -> &'static str {
    match state {
        Validity::Valid => "valid",
        Validity::Invalid => "invalid",
        Validity::NotFound => "notfound",
    }
}
