//! Metrics as their text.
ghost use Rattle.std.specs.Prelude.{◌≡◌, ◌++◌, OnOk, codes, decimal};
ghost use Rattle.prometheus_text.specs.MetricText.{help_text, kind_text, label_text, labels_text, metric_text, metrics_text, more_labels, sample_text, samples_text};

use crate::escaping::{put, put_help, put_name, put_value};
use crate::metric::{Label, Metric, Sample};
use itoa::Buffer;
use std::alloc::{AllocError, Allocator};

/// Writes metrics behind what the text has. Where memory is refused the text is of no use.
pub fn write_metrics<A: Allocator>(
    text: &mut Vec<u8, A>,
    metrics: &[Metric<'_>],
) -> Result<(), AllocError>
    ensures { OnOk result (text.new.items ≡ text.old.items ++ metrics_text metrics.now) }
{
    for metric in metrics {
        write_metric(text, metric)?;
    }
    Ok(())
}

/// The same of one metric.
pub fn write_metric<A: Allocator>(
    text: &mut Vec<u8, A>,
    metric: &Metric<'_>,
) -> Result<(), AllocError>
    ensures { OnOk result (text.new.items ≡ text.old.items ++ metric_text metric.now) }
{
    write_help(text, metric)?;
    write_kind(text, metric)?;
    write_samples(text, metric.name, metric.samples)
}

fn write_help<A: Allocator>(text: &mut Vec<u8, A>, metric: &Metric<'_>) -> Result<(), AllocError>
    ensures { OnOk result (text.new.items ≡ text.old.items ++ help_text metric.now) }
{
    put(text, b"# HELP ")?;
    put_name(text, metric.name.as_bytes())?;
    put(text, b" ")?;
    put_help(text, metric.help.as_bytes())?;
    put(text, b"\n")
}

fn write_kind<A: Allocator>(text: &mut Vec<u8, A>, metric: &Metric<'_>) -> Result<(), AllocError>
    ensures { OnOk result (text.new.items ≡ text.old.items ++ kind_text metric.now) }
{
    put(text, b"# TYPE ")?;
    put_name(text, metric.name.as_bytes())?;
    put(text, b" ")?;
    put(text, metric.kind.word().as_bytes())?;
    put(text, b"\n")
}

fn write_samples<A: Allocator>(
    text: &mut Vec<u8, A>,
    name: &str,
    samples: &[Sample<'_>],
) -> Result<(), AllocError>
    ensures { OnOk result (text.new.items ≡ text.old.items ++ samples_text name.now samples.now) }
{
    for sample in samples {
        write_sample(text, name, sample)?;
    }
    Ok(())
}

/// Writes a sample of the metric of this name.
pub fn write_sample<A: Allocator>(
    text: &mut Vec<u8, A>,
    name: &str,
    sample: &Sample<'_>,
) -> Result<(), AllocError>
    ensures { OnOk result (text.new.items ≡ text.old.items ++ sample_text name.now sample.now) }
{
    put_name(text, name.as_bytes())?;
    write_labels(text, sample.labels)?;
    put(text, b" ")?;
    write_number(text, sample.value)?;
    put(text, b"\n")
}

/// Writes a number.
pub fn write_number<A: Allocator>(text: &mut Vec<u8, A>, value: u64) -> Result<(), AllocError>
    ensures { OnOk result (text.new.items ≡ text.old.items ++ decimal value) }
{
    let mut buffer = Buffer::new();
    put(text, buffer.format(value).as_bytes())
}

fn write_labels<A: Allocator>(text: &mut Vec<u8, A>, labels: &[Label<'_>]) -> Result<(), AllocError>
    ensures { OnOk result (text.new.items ≡ text.old.items ++ labels_text labels.now) }
{
    let Some((first, rest)) = labels.split_first() else {
        return Ok(());
    };
    put(text, b"{")?;
    write_label(text, first)?;
    write_more_labels(text, rest)?;
    put(text, b"}")
}

fn write_more_labels<A: Allocator>(
    text: &mut Vec<u8, A>,
    labels: &[Label<'_>],
) -> Result<(), AllocError>
    ensures { OnOk result (text.new.items ≡ text.old.items ++ more_labels labels.now) }
{
    for label in labels {
        write_next_label(text, label)?;
    }
    Ok(())
}

fn write_next_label<A: Allocator>(
    text: &mut Vec<u8, A>,
    label: &Label<'_>,
) -> Result<(), AllocError>
    ensures { OnOk result (text.new.items ≡ text.old.items ++ (codes "," ++ label_text label.now)) }
{
    put(text, b",")?;
    write_label(text, label)
}

fn write_label<A: Allocator>(text: &mut Vec<u8, A>, label: &Label<'_>) -> Result<(), AllocError>
    ensures { OnOk result (text.new.items ≡ text.old.items ++ label_text label.now) }
{
    put_name(text, label.name.as_bytes())?;
    put(text, b"=\"")?;
    put_value(text, label.value.as_bytes())?;
    put(text, b"\"")
}
