//! The numbers of an engine, as an object and in Prometheus' text format.
ghost use Rattle.std.specs.Prelude.{◌≡◌, ◌+◌, ◌≤◌, ◌<◌, ◌++◌, length, OnOk, OnErr, vec_len, vec_capacity};
ghost use Rattle.http_front.specs.Responses.{column_metrics, commit_metrics, kept_members, metrics_body, numbered, room_members, running_metrics, stats_body};

use crate::response::{push_number, push_number_between};
use funnel_model::Stats;
use std::alloc::AllocError;

/// Appends the object of the engine's numbers.
pub(crate) fn push_stats(out: &mut Vec<u8>, stats: &Stats) -> Result<(), AllocError>
    ensures ok { OnOk result (out.new.items ≡ out.old.items ++ stats_body stats.now) }
    ensures full { OnErr result (vec_capacity out.old < vec_len out.old + length (stats_body stats.now)) }
    ensures short { length (stats_body stats.now) ≤ 256 }
    ensures capacity { vec_capacity out.old ≤ vec_capacity out.new }
{
    let Stats {
        documents,
        place,
        base,
        columns,
        free,
        retired,
        finds,
    } = *stats;
    push_kept(out, documents, place, base)?;
    push_room(out, columns, free, retired, finds)?;
    out.extend_from_slice(b"}")
}

/// Appends how many documents and commits there are.
fn push_kept(out: &mut Vec<u8>, documents: u64, place: u64, base: u64) -> Result<(), AllocError>
    ensures ok { OnOk result (out.new.items ≡ out.old.items ++ kept_members documents place base) }
    ensures full { OnErr result (vec_capacity out.old < vec_len out.old + length (kept_members documents place base)) }
    ensures short { length (kept_members documents place base) ≤ 96 }
    ensures capacity { vec_capacity out.old ≤ vec_capacity out.new }
{
    push_numbered(out, b"{\"documents\":", documents)?;
    push_numbered(out, b",\"place\":", place)?;
    push_numbered(out, b",\"base\":", base)
}

/// Appends how much room there is, and what uses it.
fn push_room(
    out: &mut Vec<u8>,
    columns: u64,
    free: u64,
    retired: u64,
    finds: u64,
) -> Result<(), AllocError>
    ensures ok { OnOk result (out.new.items ≡ out.old.items ++ room_members columns free retired finds) }
    ensures full { OnErr result (vec_capacity out.old < vec_len out.old + length (room_members columns free retired finds)) }
    ensures short { length (room_members columns free retired finds) ≤ 140 }
    ensures capacity { vec_capacity out.old ≤ vec_capacity out.new }
{
    push_numbered(out, b",\"columns\":", columns)?;
    push_numbered(out, b",\"free\":", free)?;
    push_numbered(out, b",\"retired\":", retired)?;
    push_numbered(out, b",\"finds\":", finds)
}

/// Appends a number behind a text.
fn push_numbered(out: &mut Vec<u8>, text: &[u8], number: u64) -> Result<(), AllocError>
    ensures ok { OnOk result (out.new.items ≡ out.old.items ++ numbered text.now number) }
    ensures full { OnErr result (vec_capacity out.old < vec_len out.old + length (numbered text.now number)) }
    ensures capacity { vec_capacity out.old ≤ vec_capacity out.new }
{
    out.extend_from_slice(text)?;
    push_number(out, number)
}

/// Appends the engine's numbers in Prometheus' text format.
pub(crate) fn push_metrics(out: &mut Vec<u8>, stats: &Stats) -> Result<(), AllocError>
    ensures ok { OnOk result (out.new.items ≡ out.old.items ++ metrics_body stats.now) }
    ensures full { OnErr result (vec_capacity out.old < vec_len out.old + length (metrics_body stats.now)) }
    ensures short { length (metrics_body stats.now) ≤ 1024 }
    ensures capacity { vec_capacity out.old ≤ vec_capacity out.new }
{
    let Stats {
        documents,
        place,
        base,
        columns,
        free,
        retired,
        finds,
    } = *stats;
    push_commit_metrics(out, documents, place, base)?;
    push_column_metrics(out, columns, free)?;
    push_running_metrics(out, retired, finds)
}

fn push_commit_metrics(
    out: &mut Vec<u8>,
    documents: u64,
    place: u64,
    base: u64,
) -> Result<(), AllocError>
    ensures ok { OnOk result (out.new.items ≡ out.old.items ++ commit_metrics documents place base) }
    ensures full { OnErr result (vec_capacity out.old < vec_len out.old + length (commit_metrics documents place base)) }
    ensures short { length (commit_metrics documents place base) ≤ 420 }
    ensures capacity { vec_capacity out.old ≤ vec_capacity out.new }
{
    push_number_between(
        out,
        b"# HELP funnel_documents Documents that are live.\n# TYPE funnel_documents gauge\nfunnel_documents ",
        documents,
        b"\n",
    )?;
    push_number_between(
        out,
        b"# HELP funnel_commits_total Commits so far.\n# TYPE funnel_commits_total counter\nfunnel_commits_total ",
        place,
        b"\n",
    )?;
    push_number_between(
        out,
        b"# HELP funnel_commits_trimmed_total Commits that the journal no longer keeps.\n# TYPE funnel_commits_trimmed_total counter\nfunnel_commits_trimmed_total ",
        base,
        b"\n",
    )
}

fn push_column_metrics(out: &mut Vec<u8>, columns: u64, free: u64) -> Result<(), AllocError>
    ensures ok { OnOk result (out.new.items ≡ out.old.items ++ column_metrics columns free) }
    ensures full { OnErr result (vec_capacity out.old < vec_len out.old + length (column_metrics columns free)) }
    ensures short { length (column_metrics columns free) ≤ 260 }
    ensures capacity { vec_capacity out.old ≤ vec_capacity out.new }
{
    push_number_between(
        out,
        b"# HELP funnel_columns Columns of all slices.\n# TYPE funnel_columns gauge\nfunnel_columns ",
        columns,
        b"\n",
    )?;
    push_number_between(
        out,
        b"# HELP funnel_columns_free Columns that are unclaimed.\n# TYPE funnel_columns_free gauge\nfunnel_columns_free ",
        free,
        b"\n",
    )
}

fn push_running_metrics(out: &mut Vec<u8>, retired: u64, finds: u64) -> Result<(), AllocError>
    ensures ok { OnOk result (out.new.items ≡ out.old.items ++ running_metrics retired finds) }
    ensures full { OnErr result (vec_capacity out.old < vec_len out.old + length (running_metrics retired finds)) }
    ensures short { length (running_metrics retired finds) ≤ 280 }
    ensures capacity { vec_capacity out.old ≤ vec_capacity out.new }
{
    push_number_between(
        out,
        b"# HELP funnel_slices_retired Slices that are retired.\n# TYPE funnel_slices_retired gauge\nfunnel_slices_retired ",
        retired,
        b"\n",
    )?;
    push_number_between(
        out,
        b"# HELP funnel_finds_running Finds that are running.\n# TYPE funnel_finds_running gauge\nfunnel_finds_running ",
        finds,
        b"\n",
    )
}
