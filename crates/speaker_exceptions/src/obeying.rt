//! Handing the exceptions to a speaker.
ghost use Rattle.std.specs.Prelude.{◌≡◌, map};
ghost use Rattle.speaker_exceptions.specs.ObeyedExceptions.{ObeysOne, ObeysUpTo, command_of_assertion, command_of_filter, commands_of};

use bgp_conf::Command;
use decision::Book;
use local_exceptions::{Exceptions, Filter};
use net_prefix::Vrp;
use speaker::{Event, Refusal, Speaker};
use std::alloc::Global;
use std::collections::BTreeSet;

/// Hands each filter to the speaker, the least first, and then each assertion, up to the first that it refuses.
pub fn obey_exceptions<B: Book<Global>>(
    exceptions: &Exceptions,
    speaker: &mut Speaker<Global, B>,
) -> Result<(), Refusal>
    ensures { ObeysUpTo (commands_of exceptions.now) result speaker.old speaker.new }
{
    obey_filters(exceptions.filters(), speaker)?;
    obey_assertions(exceptions.assertions(), speaker)
}

fn obey_filters<B: Book<Global>>(
    filters: &BTreeSet<Filter>,
    speaker: &mut Speaker<Global, B>,
) -> Result<(), Refusal>
    ensures { ObeysUpTo (map command_of_filter filters.now.keys) result speaker.old speaker.new }
{
    for filter in filters {
        obey(command_of_filter(*filter), speaker)?;
    }
    Ok(())
}

fn obey_assertions<B: Book<Global>>(
    assertions: &BTreeSet<Vrp>,
    speaker: &mut Speaker<Global, B>,
) -> Result<(), Refusal>
    ensures { ObeysUpTo (map command_of_assertion assertions.now.keys) result speaker.old speaker.new }
{
    for payload in assertions {
        obey(command_of_assertion(*payload), speaker)?;
    }
    Ok(())
}

// The command by which an operator filters so.
fn command_of_filter(filter: Filter) -> Command<'static>
    ensures { result ≡ command_of_filter filter }
{
    match filter {
        Filter::Prefix(prefix) => Command::Filter(Some(prefix), None),
        Filter::As(asn) => Command::Filter(None, Some(asn)),
        Filter::Both(prefix, asn) => Command::Filter(Some(prefix), Some(asn)),
    }
}

// The command by which an operator asserts this payload.
fn command_of_assertion(payload: Vrp) -> Command<'static>
    ensures { result ≡ command_of_assertion payload }
{
    Command::Assert(payload.prefix, payload.max_len, payload.asn)
}

fn obey<B: Book<Global>>(
    command: Command<'_>,
    speaker: &mut Speaker<Global, B>,
) -> Result<(), Refusal>
    ensures { ObeysOne command.entry result speaker.old speaker.new }
{
    match speaker.step(Event::Command(command)) {
        Ok(_) => Ok(()),
        Err(refusal) => Err(refusal),
    }
}
