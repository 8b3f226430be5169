//! Figures as scrapers are told them.
ghost use Rattle.std.specs.Prelude.{◌≡◌, ◌++◌, OnOk};
ghost use Rattle.std.specs.List.{flat_map};
ghost use Rattle.cache_figures.specs.FiguresText.{as_number, figure_text, figures_text, head_text, if_told_text, list_text, routers_text, run_text, served_text, value_text};

use crate::figure::Figure;
use crate::figures::{CacheFigures, RunFigures};
use prometheus_text::{Label, Metric, Sample, write_metric, write_sample};
use std::alloc::{AllocError, Allocator};

/// Writes the figures of a cache and of its run, with how many seconds ago the list was written, if that can be told,
/// behind what the text has. Where memory is refused the text is of no use.
#[tactic(auto, unfolding(crate::specs::FiguresText::figures_text))]
pub fn write_figures<A: Allocator>(
    text: &mut Vec<u8, A>,
    cache: &CacheFigures,
    run: &RunFigures,
    age: Option<u64>,
) -> Result<(), AllocError>
    ensures { OnOk result (text.new.items ≡ text.old.items ++ figures_text cache.now run.now age) }
{
    write_served(text, cache, run)?;
    write_list(text, cache, run, age)?;
    write_routers(text, cache)?;
    write_run(text, cache, run)
}

// What is served.
#[tactic(auto, unfolding(crate::specs::FiguresText::served_text))]
fn write_served<A: Allocator>(
    text: &mut Vec<u8, A>,
    cache: &CacheFigures,
    run: &RunFigures,
) -> Result<(), AllocError>
    ensures { OnOk result (text.new.items ≡ text.old.items ++ served_text cache.now run.now) }
{
    let vrps = [("ipv4", cache.payloads as u64)];
    write_labelled(text, Figure::Vrps, "ip_version", &vrps)?;
    write_figure(text, Figure::Serial, cache.serial as u64)?;
    write_figure(text, Figure::Session, run.session as u64)
}

// The list that it came from.
#[tactic(auto, unfolding(crate::specs::FiguresText::list_text))]
fn write_list<A: Allocator>(
    text: &mut Vec<u8, A>,
    cache: &CacheFigures,
    run: &RunFigures,
    age: Option<u64>,
) -> Result<(), AllocError>
    ensures { OnOk result (text.new.items ≡ text.old.items ++ list_text cache.now run.now age) }
{
    write_if_told(text, Figure::Written, age)?;
    write_figure(text, Figure::Read, cache.read)?;
    write_figure(text, Figure::Withdrawn, as_number(cache.withdrawn))?;
    let rereads = [
        ("taken", run.taken),
        ("same", run.same),
        ("unchanged", run.unchanged),
        ("refused", run.refused),
    ];
    write_labelled(text, Figure::Rereads, "outcome", &rereads)
}

fn as_number(is_so: bool) -> u64
    ensures { result ≡ as_number is_so }
{
    match is_so {
        true => 1,
        false => 0,
    }
}

// The routers.
#[tactic(auto, unfolding(crate::specs::FiguresText::routers_text))]
fn write_routers<A: Allocator>(
    text: &mut Vec<u8, A>,
    cache: &CacheFigures,
) -> Result<(), AllocError>
    ensures { OnOk result (text.new.items ≡ text.old.items ++ routers_text cache.now) }
{
    write_figure(text, Figure::Clients, cache.routers as u64)?;
    let routers = [
        ("current", cache.current as u64),
        ("behind", cache.behind as u64),
        ("without", cache.without as u64),
    ];
    write_labelled(text, Figure::Routers, "state", &routers)
}

// What the run has counted.
#[tactic(auto, unfolding(crate::specs::FiguresText::run_text))]
fn write_run<A: Allocator>(
    text: &mut Vec<u8, A>,
    cache: &CacheFigures,
    run: &RunFigures,
) -> Result<(), AllocError>
    ensures { OnOk result (text.new.items ≡ text.old.items ++ run_text cache.now run.now) }
{
    let octets = [("in", cache.octets_in), ("out", cache.octets_out)];
    write_labelled(text, Figure::Octets, "direction", &octets)?;
    write_figure(text, Figure::Lost, cache.lost)?;
    write_figure(text, Figure::Closed, cache.closed)?;
    write_figure(text, Figure::Turns, run.turns)
}

// A figure, if it can be told.
fn write_if_told<A: Allocator>(
    text: &mut Vec<u8, A>,
    figure: Figure,
    value: Option<u64>,
) -> Result<(), AllocError>
    ensures { OnOk result (text.new.items ≡ text.old.items ++ if_told_text figure value) }
{
    match value {
        Some(value) => write_figure(text, figure, value),
        None => Ok(()),
    }
}

// A figure of one value.
fn write_figure<A: Allocator>(
    text: &mut Vec<u8, A>,
    figure: Figure,
    value: u64,
) -> Result<(), AllocError>
    ensures { OnOk result (text.new.items ≡ text.old.items ++ figure_text figure value) }
{
    write_head(text, figure)?;
    write_sample(text, figure.name(), &Sample { labels: &[], value })
}

// A figure with a value for each word of a label.
fn write_labelled<A: Allocator>(
    text: &mut Vec<u8, A>,
    figure: Figure,
    label: &str,
    values: &[(&str, u64)],
) -> Result<(), AllocError>
    ensures { OnOk result (text.new.items ≡ text.old.items ++ head_text figure ++ flat_map (λ told. value_text figure label.now told.0.now told.1) values.now) }
{
    write_head(text, figure)?;
    write_values(text, figure, label, values)
}

fn write_values<A: Allocator>(
    text: &mut Vec<u8, A>,
    figure: Figure,
    label: &str,
    values: &[(&str, u64)],
) -> Result<(), AllocError>
    ensures { OnOk result (text.new.items ≡ text.old.items ++ flat_map (λ told. value_text figure label.now told.0.now told.1) values.now) }
{
    for (word, value) in values {
        write_value(text, figure, label, word, *value)?;
    }
    Ok(())
}

fn write_value<A: Allocator>(
    text: &mut Vec<u8, A>,
    figure: Figure,
    label: &str,
    word: &str,
    value: u64,
) -> Result<(), AllocError>
    ensures { OnOk result (text.new.items ≡ text.old.items ++ value_text figure label.now word.now value) }
{
    let label = Label {
        name: label,
        value: word,
    };
    let sample = Sample {
        labels: &[label],
        value,
    };
    write_sample(text, figure.name(), &sample)
}

// What a figure is: its help and its kind.
fn write_head<A: Allocator>(text: &mut Vec<u8, A>, figure: Figure) -> Result<(), AllocError>
    ensures { OnOk result (text.new.items ≡ text.old.items ++ head_text figure) }
{
    let metric = Metric {
        name: figure.name(),
        help: figure.help(),
        kind: figure.kind(),
        samples: &[],
    };
    write_metric(text, &metric)
}
