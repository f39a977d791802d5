//! Reports.

ghost use Rattle.std.specs.Prelude.{◌≡◌, ◌≤◌, ◌<◌, ◌+◌, ◌*◌, ◌^◌, ℕ, List, ◌++◌, ◌∷◌, [], length, codes, decimal, IfOk, vec_len, vec_capacity};
ghost use Rattle.text_lines.specs.Lines.{line};
ghost use Rattle.period_table.specs.Tables.{Fits};
ghost use Rattle.schedule_model.specs.declared.schedule.Series.TheVariants.{Tasking};
ghost use Rattle.run_text.specs.Reports.{run_line, digest_line, digests_text, node_line, nodes_text, report_text, IsReportable};

use crate::appending::{hexadecimal, push_number, push_text};
use crate::batches::{batches, periods};
use listed::NoMemory;
use period_table::Table;
use platform_file::{Node, Timed};
use std::alloc::Global;

/// The bytes of the longest line of a digest.
const DIGEST_LINE: u128 = 93;

/// The bytes of the longest first line, of the longest lines of 32 nodes and of the last line.
const OTHER_LINES: u128 = 2050;

/// Appends the first line.
fn push_run(into: &mut Vec<u8>, table: &Table, chunks: u64, events: u64)
    requires small { table.now.tasks ≤ 2 ^ 107 }
    requires some { table.now.tasks ≡ 0 → chunks ≡ 0 }
    requires room { vec_len into.old + length (line (run_line table.now chunks events)) ≤ vec_capacity into.old }
    ensures text { into.new.items ≡ into.old.items ++ line (run_line table.now chunks events) }
    ensures len { vec_len into.new ≡ vec_len into.old + length (line (run_line table.now chunks events)) }
    ensures capacity { vec_capacity into.old ≤ vec_capacity into.new }
{
    push_number(into, "run 1 chunks ", u128::from(chunks));
    push_number(into, " batches ", batches(table.tasks, chunks));
    push_number(into, " periods ", periods(table, chunks));
    push_number(into, " events ", u128::from(events));
    push_text(into, b"\n");
}

/// Appends the line of a digest.
fn push_digest(into: &mut Vec<u8>, number: u64, digest: &[u8; 32])
    requires room { vec_len into.old + length (line (digest_line number digest.now)) ≤ vec_capacity into.old }
    ensures text { into.new.items ≡ into.old.items ++ line (digest_line number digest.now) }
    ensures len { vec_len into.new ≡ vec_len into.old + length (line (digest_line number digest.now)) }
    ensures capacity { vec_capacity into.old ≤ vec_capacity into.new }
{
    push_number(into, "digest ", u128::from(number));
    push_text(into, b" ");
    push_text(into, &hexadecimal(digest));
    push_text(into, b"\n");
}

/// Appends the lines of the digests.
fn push_digests(into: &mut Vec<u8>, results: &[[u8; 32]])
    requires room { vec_len into.old + length (digests_text 0 results.now) ≤ vec_capacity into.old }
    ensures text { into.new.items ≡ into.old.items ++ digests_text 0 results.now }
    ensures len { vec_len into.new ≡ vec_len into.old + length (digests_text 0 results.now) }
    ensures capacity { vec_capacity into.old ≤ vec_capacity into.new }
{
    for number in 0..results.len() {
        push_digest(into, number as u64, &results[number]);
    }
}

/// Appends the line of a node.
fn push_node(into: &mut Vec<u8>, node: &Node, count: u64)
    requires room { vec_len into.old + length (line (node_line node.now count)) ≤ vec_capacity into.old }
    ensures text { into.new.items ≡ into.old.items ++ line (node_line node.now count) }
    ensures len { vec_len into.new ≡ vec_len into.old + length (line (node_line node.now count)) }
    ensures capacity { vec_capacity into.old ≤ vec_capacity into.new }
{
    push_text(into, b"node ");
    push_text(into, node.name().as_str().as_bytes());
    push_number(into, " ", u128::from(count));
    push_text(into, b"\n");
}

/// Appends the lines of the nodes.
fn push_nodes(into: &mut Vec<u8>, nodes: &[Node], counts: &[u64])
    requires each { length counts.now ≡ length nodes.now }
    requires room { vec_len into.old + length (nodes_text nodes.now counts.now) ≤ vec_capacity into.old }
    ensures text { into.new.items ≡ into.old.items ++ nodes_text nodes.now counts.now }
    ensures len { vec_len into.new ≡ vec_len into.old + length (nodes_text nodes.now counts.now) }
    ensures capacity { vec_capacity into.old ≤ vec_capacity into.new }
{
    for number in 0..nodes.len() {
        push_node(into, &nodes[number], counts[number]);
    }
}

/// Appends a report to a text that has room for it: a run's chunks, batches, periods and events, each chunk's digest in `results`,
/// and how many tasks each node computed in `counts`. Takes no memory, and time linear in the text.
pub fn report_into(
    timed: &Timed,
    table: &Table,
    events: u64,
    results: &[[u8; 32]],
    counts: &[u64],
    into: &mut Vec<u8>,
)
    requires fits { Fits timed.now Tasking table.now }
    requires each { length counts.now ≡ length timed.now.platform.nodes }
    requires none { table.now.tasks ≡ 0 → length results.now ≡ 0 }
    requires room { vec_len into.old + length (report_text timed.now table.now events results.now counts.now) ≤ vec_capacity into.old }
    ensures { into.new.items ≡ into.old.items ++ report_text timed.now table.now events results.now counts.now }
{
    push_run(into, table, results.len() as u64, events);
    push_digests(into, results);
    push_nodes(into, timed.platform().nodes(), counts);
    push_text(into, b"end\n");
}

/// Room for the report of so many chunks, in bytes, whatever its digests and its counts.
pub fn report_room(timed: &Timed, table: &Table, chunks: u64) -> u128
    ensures { (events : ℕ) (results : List (List ℕ)) (counts : List ℕ) → IsReportable timed.now events results counts
        → length results ≡ chunks → length (report_text timed.now table.now events results counts) ≤ result }
{
    timed.known();
    // These are read so that it is known that each fits its type.
    let (_tasks, _depth) = (table.tasks, table.depth);
    u128::from(chunks) * DIGEST_LINE + OTHER_LINES
}

/// The text of a report, as `report_into` appends it, in memory that is reserved once.
///
/// # Errors
///
/// `NoMemory` where memory runs out.
pub fn print_report(
    alloc: Global,
    timed: &Timed,
    table: &Table,
    events: u64,
    results: &[[u8; 32]],
    counts: &[u64],
) -> Result<Vec<u8>, NoMemory>
    requires fits { Fits timed.now Tasking table.now }
    requires each { length counts.now ≡ length timed.now.platform.nodes }
    requires none { table.now.tasks ≡ 0 → length results.now ≡ 0 }
    ensures { IfOk result (λ text. text.items ≡ report_text timed.now table.now events results.now counts.now) }
{
    let Ok(room) = usize::try_from(report_room(timed, table, results.len() as u64)) else {
        return Err(NoMemory);
    };
    let mut text = Vec::with_capacity(alloc, room)?;
    report_into(timed, table, events, results, counts, &mut text);
    Ok(text)
}
