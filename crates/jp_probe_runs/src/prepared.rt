//! What is prepared once for several inputs:
//! `{"prepared":{"query":"$.a","cut":[4,2,8],"inputs":["{}\n","[]\n"]}}`.

use crate::runs::text_of_end;
use crate::settings::{FaultAnswer, cut_of, settings_of};
use jp_answer::{Crew, OpenGate};
use jp_probe_parts::{Row, text_in};
use jp_run::{Buffers, FromReader, FromWriter, Prepared, Settings};
use serde::Serialize;
use serde_json::Value;
use std::alloc::{AllocError, Global};
use std::str;
use std::thread::Threads;

/// Of each input what its run ends with and what it writes.
#[derive(Drop, Serialize)]
struct PreparedAnswer {
    runs: Vec<(String, String)>,
}

/// The answer to what is prepared: what the runs come to, or the fault of the query or of the filter.
pub fn answer_prepared<R: Threads + Sync>(
    rt: &R,
    alloc: Global,
    row: Row<'_>,
) -> anyhow::Result<String> {
    row.has_only(&["query", "cut", "settings", "inputs"])?;
    let settings = settings_of(cut_of(row)?, row.items("settings")?)??;
    let crew = Crew {
        rt,
        alloc,
        gate: &OpenGate,
    };
    match Prepared::new(alloc, row.text("query")?, settings.filter, settings.numbers) {
        Ok(prepared) => {
            let runs = runs_of_prepared(&crew, &prepared, &settings, row.items("inputs")?)?;
            Ok(serde_json::to_string(alloc, &PreparedAnswer { runs })?)
        }
        Err(fault) => {
            let fault = format!(in alloc; "{fault}")?;
            Ok(serde_json::to_string(alloc, &FaultAnswer { fault })?)
        }
    }
}

/// Of each input what its run ends with and what it writes.
fn runs_of_prepared<R: Threads + Sync>(
    crew: &Crew<R, OpenGate>,
    prepared: &Prepared,
    settings: &Settings<'_>,
    inputs: &[Value],
) -> anyhow::Result<Vec<(String, String)>> {
    let mut runs = Vec::new(crew.alloc);
    let mut buffers = Buffers::new(crew.alloc);
    for input in inputs {
        let input = text_in(input)?;
        runs.push(run_of_prepared(crew, prepared, settings, &mut buffers, input)?)?;
    }
    Ok(runs)
}

/// What a run of what is prepared ends with, and what it writes.
fn run_of_prepared<R: Threads + Sync>(
    crew: &Crew<R, OpenGate>,
    prepared: &Prepared,
    settings: &Settings<'_>,
    buffers: &mut Buffers,
    input: &str,
) -> Result<(String, String), AllocError> {
    let mut source = FromReader::new(input.as_bytes());
    let mut kept = Vec::new(crew.alloc);
    let mut sink = FromWriter::new(&mut kept);
    let end = prepared.run(crew, settings, buffers, &mut source, &mut sink);
    let output = str::from_utf8(&kept).unwrap_or("no UTF-8");
    Ok((
        text_of_end(crew.alloc, &end)?,
        String::from_str(crew.alloc, output)?,
    ))
}
