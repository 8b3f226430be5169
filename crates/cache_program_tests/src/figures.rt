//! Figures in Prometheus' text format, as its page shows them, and the requests that ask for them.

use prometheus_text::{
    Asked, Label, Metric, MetricKind, Sample, judge_request, write_answer, write_metrics,
};
use std::alloc::Global;
use std::test::Fail;

const POSTED: [Label<'static>; 2] = [
    Label {
        name: "method",
        value: "post",
    },
    Label {
        name: "code",
        value: "200",
    },
];

const FAILED: [Label<'static>; 2] = [
    Label {
        name: "method",
        value: "post",
    },
    Label {
        name: "code",
        value: "400",
    },
];

const REQUESTS: [Sample<'static>; 2] = [
    Sample {
        labels: &POSTED,
        value: 1027,
    },
    Sample {
        labels: &FAILED,
        value: 3,
    },
];

const ESCAPED: [Label<'static>; 2] = [
    Label {
        name: "path",
        value: "C:\\DIR\\FILE.TXT",
    },
    Label {
        name: "error",
        value: "Cannot find file:\n\"FILE.TXT\"",
    },
];

const FILES: [Sample<'static>; 1] = [Sample {
    labels: &ESCAPED,
    value: 1_458_255_915,
}];

const METRICS: [Metric<'static>; 2] = [
    Metric {
        name: "http_requests_total",
        help: "The total number of HTTP requests.",
        kind: MetricKind::Counter,
        samples: &REQUESTS,
    },
    Metric {
        name: "msdos-file access_time_seconds",
        help: "Of C:\\\nand others.",
        kind: MetricKind::Gauge,
        samples: &FILES,
    },
];

const TEXT: &str = "# HELP http_requests_total The total number of HTTP requests.
# TYPE http_requests_total counter
http_requests_total{method=\"post\",code=\"200\"} 1027
http_requests_total{method=\"post\",code=\"400\"} 3
# HELP msdos_file_access_time_seconds Of C:\\\\\\nand others.
# TYPE msdos_file_access_time_seconds gauge
msdos_file_access_time_seconds{path=\"C:\\\\DIR\\\\FILE.TXT\",error=\"Cannot find file:\\n\\\"FILE.TXT\\\"\"} 1458255915
";

#[test]
fn figures_are_told_as_prometheus_has_them(rt: HostRuntime) -> Result<(), Fail> {
    let mut text = Vec::new(rt.alloc());
    write_metrics(&mut text, &METRICS)?;
    assert!(rt; text.as_slice() == TEXT.as_bytes());
    Ok(())
}

const ASKED: [(&str, Asked); 7] = [
    (
        "GET /metrics HTTP/1.1\r\nHost: localhost\r\n\r\n",
        Asked::Metrics,
    ),
    ("GET /metrics HTTP/1.0\r\n\r\n", Asked::Metrics),
    (
        "GET / HTTP/1.1\r\nHost: localhost\r\n\r\n",
        Asked::OtherTarget,
    ),
    (
        "POST /metrics HTTP/1.1\r\nHost: localhost\r\n\r\n",
        Asked::OtherMethod,
    ),
    ("GET /metrics HTTP/1.1\r\nHost: loc", Asked::More),
    ("GET /metrics HTTP/2.7\r\n\r\n", Asked::NoRequest),
    ("\u{1}\u{2}", Asked::NoRequest),
];

// Whether each text asks for this.
fn are_judged(asked: &[(&str, Asked)]) -> bool {
    for (text, wanted) in asked {
        if judge_request(text.as_bytes()) != *wanted {
            return false;
        }
    }
    true
}

// What a head of so many octets asks for that doesn't end.
fn asked_by_long(alloc: Global, octets: usize) -> Result<Asked, Fail> {
    let mut text = Vec::from_slice(alloc, b"GET /metrics HTTP/1.1\r\nHost: ")?;
    for _ in text.len()..octets {
        text.push(b'a')?;
    }
    Ok(judge_request(text.as_slice()))
}

#[test]
fn requests_are_judged(rt: HostRuntime) -> Result<(), Fail> {
    assert!(rt; are_judged(&ASKED));
    assert!(rt; asked_by_long(rt.alloc(), 4095)? == Asked::More);
    assert!(rt; asked_by_long(rt.alloc(), 4096)? == Asked::TooMuch);
    Ok(())
}

const ANSWER: &str =
    "HTTP/1.1 200 OK\r\nContent-Type: text/plain; version=0.0.4; charset=utf-8\r\nContent-Length: 6\r\nConnection: close\r\n\r\nup 1\n\n";

#[test]
fn figures_are_answered(rt: HostRuntime) -> Result<(), Fail> {
    let mut text = Vec::new(rt.alloc());
    write_answer(&mut text, Asked::Metrics, b"up 1\n\n")?;
    assert!(rt; text.as_slice() == ANSWER.as_bytes());
    Ok(())
}
