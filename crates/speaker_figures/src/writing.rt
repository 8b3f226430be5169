//! Figures as scrapers are told them.
ghost use Rattle.std.specs.Prelude.{◌≡◌, ◌++◌, OnOk};
ghost use Rattle.std.specs.List.{flat_map};
ghost use Rattle.speaker_figures.specs.FiguresText.{cache_text, connected_text, connecting_text, figure_text, figures_text, head_text, notices_text, run_text, value_text};

use crate::figure::Figure;
use crate::figures::{CacheStates, SessionStates, SpeakerFigures};
use crate::notices::Notices;
use prometheus_text::{Label, Metric, Sample, write_metric, write_sample};
use std::alloc::{AllocError, Allocator};

/// Writes the figures of a speaker behind what the text has. Where memory is refused the text is of no use.
#[tactic(auto, unfolding(crate::specs::FiguresText::figures_text))]
pub fn write_figures<A: Allocator>(
    text: &mut Vec<u8, A>,
    figures: &SpeakerFigures,
) -> Result<(), AllocError>
    ensures { OnOk result (text.new.items ≡ text.old.items ++ figures_text figures.now) }
{
    write_connecting(text, &figures.sessions)?;
    write_connected(text, &figures.sessions)?;
    write_figure(text, Figure::Routes, figures.routes)?;
    write_figure(text, Figure::Payloads, figures.payloads)?;
    write_cache(text, &figures.cache)?;
    write_notices(text, Figure::Received, &figures.received)?;
    write_notices(text, Figure::Sent, &figures.sent)?;
    write_run(text, figures)
}

// The sessions of peers that have no connection.
#[tactic(auto, unfolding(crate::specs::FiguresText::connecting_text))]
fn write_connecting<A: Allocator>(
    text: &mut Vec<u8, A>,
    sessions: &SessionStates,
) -> Result<(), AllocError>
    ensures { OnOk result (text.new.items ≡ text.old.items ++ connecting_text sessions.now) }
{
    let states = [
        ("Idle", sessions.idle),
        ("Connect", sessions.connect),
        ("Active", sessions.active),
    ];
    write_labelled(text, Figure::Sessions, "state", &states)
}

// And of those that have one.
#[tactic(auto, unfolding(crate::specs::FiguresText::connected_text))]
fn write_connected<A: Allocator>(
    text: &mut Vec<u8, A>,
    sessions: &SessionStates,
) -> Result<(), AllocError>
    ensures { OnOk result (text.new.items ≡ text.old.items ++ connected_text sessions.now) }
{
    let states = [
        ("OpenSent", sessions.open_sent),
        ("OpenConfirm", sessions.open_confirm),
        ("Established", sessions.established),
    ];
    write_values(text, Figure::Sessions, "state", &states)
}

// The session with the cache.
#[tactic(auto, unfolding(crate::specs::FiguresText::cache_text))]
fn write_cache<A: Allocator>(text: &mut Vec<u8, A>, cache: &CacheStates) -> Result<(), AllocError>
    ensures { OnOk result (text.new.items ≡ text.old.items ++ cache_text cache.now) }
{
    let states = [
        ("Off", cache.off),
        ("Opening", cache.opening),
        ("Asked", cache.asked),
        ("Loading", cache.loading),
        ("Synced", cache.synced),
        ("Wait", cache.wait),
    ];
    write_labelled(text, Figure::CacheSession, "state", &states)
}

// The NOTIFICATIONs of one direction.
#[tactic(auto, unfolding(crate::specs::FiguresText::notices_text))]
fn write_notices<A: Allocator>(
    text: &mut Vec<u8, A>,
    figure: Figure,
    notices: &Notices,
) -> Result<(), AllocError>
    ensures { OnOk result (text.new.items ≡ text.old.items ++ notices_text figure notices.now) }
{
    let codes = [
        ("1", notices.header),
        ("2", notices.open_message),
        ("3", notices.update),
        ("4", notices.hold_timer),
        ("5", notices.state_machine),
        ("6", notices.cease),
        ("other", notices.other),
    ];
    write_labelled(text, figure, "code", &codes)
}

// What the run has counted besides.
#[tactic(auto, unfolding(crate::specs::FiguresText::run_text))]
fn write_run<A: Allocator>(
    text: &mut Vec<u8, A>,
    figures: &SpeakerFigures,
) -> Result<(), AllocError>
    ensures { OnOk result (text.new.items ≡ text.old.items ++ run_text figures.now) }
{
    let octets = [("in", figures.octets_in), ("out", figures.octets_out)];
    write_labelled(text, Figure::Octets, "direction", &octets)?;
    write_figure(text, Figure::Lost, figures.lost)?;
    write_figure(text, Figure::Closed, figures.closed)?;
    write_figure(text, Figure::Turns, figures.turns)
}

// A figure of one value.
fn write_figure<A: Allocator>(
    text: &mut Vec<u8, A>,
    figure: Figure,
    value: u64,
) -> Result<(), AllocError>
    ensures { OnOk result (text.new.items ≡ text.old.items ++ figure_text figure value) }
{
    write_head(text, figure)?;
    write_sample(text, figure.name(), &Sample { labels: &[], value })
}

// A figure with a value for each word of a label.
fn write_labelled<A: Allocator>(
    text: &mut Vec<u8, A>,
    figure: Figure,
    label: &str,
    values: &[(&str, u64)],
) -> Result<(), AllocError>
    ensures { OnOk result (text.new.items ≡ text.old.items ++ head_text figure ++ flat_map (λ told. value_text figure label.now told.0.now told.1) values.now) }
{
    write_head(text, figure)?;
    write_values(text, figure, label, values)
}

fn write_values<A: Allocator>(
    text: &mut Vec<u8, A>,
    figure: Figure,
    label: &str,
    values: &[(&str, u64)],
) -> Result<(), AllocError>
    ensures { OnOk result (text.new.items ≡ text.old.items ++ flat_map (λ told. value_text figure label.now told.0.now told.1) values.now) }
{
    for (word, value) in values {
        write_value(text, figure, label, word, *value)?;
    }
    Ok(())
}

fn write_value<A: Allocator>(
    text: &mut Vec<u8, A>,
    figure: Figure,
    label: &str,
    word: &str,
    value: u64,
) -> Result<(), AllocError>
    ensures { OnOk result (text.new.items ≡ text.old.items ++ value_text figure label.now word.now value) }
{
    let label = Label {
        name: label,
        value: word,
    };
    let sample = Sample {
        labels: &[label],
        value,
    };
    write_sample(text, figure.name(), &sample)
}

// What a figure is: its help and its kind.
fn write_head<A: Allocator>(text: &mut Vec<u8, A>, figure: Figure) -> Result<(), AllocError>
    ensures { OnOk result (text.new.items ≡ text.old.items ++ head_text figure) }
{
    let metric = Metric {
        name: figure.name(),
        help: figure.help(),
        kind: figure.kind(),
        samples: &[],
    };
    write_metric(text, &metric)
}
