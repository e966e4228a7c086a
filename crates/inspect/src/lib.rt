// What the program prints of an image file.
#![tactic(auto)]

ghost use Rattle.std.specs.Prelude.{◌≡◌, ◌^◌, IfOk, MatchResult, string_bytes};
ghost use Rattle.frame_map.specs.Maps.{entries_below};
ghost use Rattle.sorted_map.specs.File.{LoadFailed};
ghost use Rattle.inspect.specs.Reports.{GoodFile, GoodDelta, DeltaFailed, text_of_rows};
ghost use Rattle.inspect.specs.Printing.{printed, Reported, Reports, DeltaReports};

use delta_map::DeltaMap;
use frame_map::{FrameMap, entries};
use refusal::Refused;
use sorted_map::{LoadError, load_sorted};
use std::alloc::{AllocError, Global};

// What there is to print of an image.
#[derive(Drop)]
pub enum Report {
    // Of a good one its rows, in lines.
    Good(String),
    // Of a bad one the line of its refusal.
    Bad(String),
}

impl Report {
    // The text to print.
    pub fn text(&self) -> &str
        ensures { result.now ≡ printed self.now }
    {
        match self {
            Report::Good(text) | Report::Bad(text) => text.as_str(),
        }
    }
}

// How many rows a map has, and a line for each, by rising point.
fn rows_text<M: FrameMap>(map: &mut M, heap: Global) -> Result<String, AllocError>
    ensures { IfOk result (λ t. string_bytes t ≡ text_of_rows (entries_below (M.rows map.old) (2 ^ 16))) }
{
    let all = entries(map, heap)?;
    let count = all.len();
    let mut text = format!(in heap; "{count} rows\n")?;
    for entry in &all {
        writeln!(text, "{entry}")?;
    }
    Ok(text)
}

// The rows of a file of a sorted image in lines, or why it has none.
fn sorted_rows(heap: Global, bytes: &[u8]) -> Result<String, LoadError>
    ensures { MatchResult result (λ t. GoodFile bytes.now (string_bytes t)) (LoadFailed bytes.now) }
{
    let mut map = load_sorted(heap, bytes)?;
    Ok(rows_text(&mut map, heap)?)
}

// The rows of a delta image in lines, or why it has none.
fn delta_rows(heap: Global, image: Vec<u8>) -> Result<String, LoadError>
    ensures { MatchResult result (λ t. GoodDelta image.items (string_bytes t)) (DeltaFailed image.items) }
{
    let mut map = DeltaMap::new(image)?;
    Ok(rows_text(&mut map, heap)?)
}

// The report of these rows, or of why there are none.
fn to_print(heap: Global, rows: Result<String, LoadError>) -> Result<Report, AllocError>
    ensures { IfOk result (Reported rows) }
{
    match rows {
        Ok(rows) => Ok(Report::Good(rows)),
        Err(LoadError::Refused(reason)) => {
            let line = format!(in heap; "{}\n", Refused(reason))?;
            Ok(Report::Bad(line))
        }
        Err(LoadError::NoMemory) => Err(AllocError),
    }
}

// Inspects a file of a sorted image: its rows, or where it is bad.
pub fn inspect_sorted(heap: Global, bytes: &[u8]) -> Result<Report, AllocError>
    ensures { IfOk result (Reports bytes.now) }
{
    to_print(heap, sorted_rows(heap, bytes))
}

// Inspects a delta image: its rows, or where it is bad.
pub fn inspect_delta(heap: Global, image: Vec<u8>) -> Result<Report, AllocError>
    ensures { IfOk result (DeltaReports image.items) }
{
    to_print(heap, delta_rows(heap, image))
}
