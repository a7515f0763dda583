ghost use Rattle.std.specs.Prelude.{◌≡◌, ◌++◌, length, codes, flat_map, decimal, OnOk};
ghost use Rattle.std.specs.List.{zip};
ghost use Rattle.load_gen.specs.Queries.{queries};
ghost use Rattle.load_gen.specs.Summary.{counts_text, line, query_line, summary_text};

use crate::limits::DELETED_ONE_IN;
use crate::queries::QUERIES;
use funnel_model::Memory;
use itoa::Buffer;
use std::alloc::AllocError;

/// Sets `out` to the summary of a load: how many documents there were, how many were deleted and are left, that no
/// find missed, and for each query its result, which is how many documents it found and the sum of their numbers.
/// Where it finds no memory, what stands in `out` is no summary.
pub fn summary(docs: u32, results: &[(u64, u64)], out: &mut Vec<u8>) -> Result<(), Memory>
    requires { length results.now ≡ 8 }
    ensures { OnOk result (out.new.items ≡ summary_text docs results.now) }
{
    out.clear();
    push_counts(out, docs)?;
    push_results(out, results)?;
    Ok(())
}

fn push_counts(out: &mut Vec<u8>, docs: u32) -> Result<(), AllocError>
    ensures { OnOk result (out.new.items ≡ out.old.items ++ counts_text docs) }
{
    let deleted = docs / DELETED_ONE_IN;
    push_line(out, b"documents ", docs)?;
    push_line(out, b"deleted ", deleted)?;
    push_line(out, b"live ", docs - deleted)?;
    push_line(out, b"misses ", 0)
}

/// Appends a line for each query.
fn push_results(out: &mut Vec<u8>, results: &[(u64, u64)]) -> Result<(), AllocError>
    ensures { OnOk result (out.new.items ≡ out.old.items ++ flat_map query_line (zip queries results.now)) }
{
    for (query, (count, total)) in QUERIES.iter().zip(results) {
        push_result(out, query.as_bytes(), *count, *total)?;
    }
    Ok(())
}

fn push_line(out: &mut Vec<u8>, words: &[u8], number: u32) -> Result<(), AllocError>
    ensures { OnOk result (out.new.items ≡ out.old.items ++ line words.now number) }
{
    push_numbered(out, words, u64::from(number))?;
    out.extend_from_slice(b"\n")
}

fn push_result(out: &mut Vec<u8>, query: &[u8], count: u64, total: u64) -> Result<(), AllocError>
    ensures { OnOk result (out.new.items ≡ out.old.items ++ query_line (query.now, (count, total))) }
{
    out.extend_from_slice(b"query ")?;
    out.extend_from_slice(query)?;
    push_numbered(out, b": ", count)?;
    push_numbered(out, b" ", total)?;
    out.extend_from_slice(b"\n")
}

/// Appends the words and the number.
fn push_numbered(out: &mut Vec<u8>, words: &[u8], number: u64) -> Result<(), AllocError>
    ensures { OnOk result (out.new.items ≡ out.old.items ++ words.now ++ decimal number) }
{
    out.extend_from_slice(words)?;
    let mut buffer = Buffer::new();
    out.extend_from_slice(buffer.format(number).as_bytes())
}
