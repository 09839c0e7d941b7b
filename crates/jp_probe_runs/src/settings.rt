//! Settings: `{"settings":{"cut":[3,5,7],"settings":["keep_going",{"form":"raw"},{"name":"a"}]}}`.

use jp_answer::OnFault;
use jp_number::Numbers;
use jp_output::Ending;
use jp_probe_parts::{Row, number_in, text_in};
use jp_run::{Cutting, Output, RunFault, Settings};
use serde::Serialize;
use serde_json::Value;
use std::alloc::Global;

/// How many workers there are, and documents of a piece and of a batch.
pub type Cut = (u64, u64, u64);

/// The sizes that a row has.
pub fn cut_of(row: Row<'_>) -> anyhow::Result<Cut> {
    match row.items("cut")? {
        [workers, piece, batch] => Ok((number_in(workers)?, number_in(piece)?, number_in(batch)?)),
        _ => Err(anyhow::anyhow!("a row has no cut of three numbers")),
    }
}

/// The settings of these sizes, which are told this in turn, or their fault.
pub fn settings_of<'v>(
    cut: Cut,
    tellings: &'v [Value],
) -> anyhow::Result<Result<Settings<'v>, RunFault>> {
    let mut settings = match Settings::new(cut.0, cut.1, cut.2) {
        Ok(settings) => settings,
        Err(fault) => return Ok(Err(fault)),
    };
    for telling in tellings {
        settings = told_more(settings, telling)?;
    }
    Ok(Ok(settings))
}

/// The settings once they are told this too, beside their sizes: a word, or an object that has a form, a name
/// or a filter.
fn told_more<'v>(settings: Settings<'v>, telling: &'v Value) -> anyhow::Result<Settings<'v>> {
    if telling.is_string() {
        return told_word(settings, text_in(telling)?);
    }
    let row = Row::of(telling);
    let (name, _) = row.only_member()?;
    let text = row.text(name)?;
    Ok(match name {
        "form" => settings.with_output(output_of(text)?),
        "name" => settings.with_name(Some(text)),
        "filter" => settings.with_filter(Some(text)),
        _ => return Err(anyhow::anyhow!("settings in a row are told what they do not know")),
    })
}

/// The settings once they are told a word.
fn told_word<'v>(settings: Settings<'v>, word: &str) -> anyhow::Result<Settings<'v>> {
    Ok(match word {
        "keep_going" => settings.keep_going(),
        "decimals" => settings.with_decimals(),
        "documents" => settings.with_cutting(Cutting::Documents),
        "null" => settings.with_ending(Ending::Null),
        _ => return Err(anyhow::anyhow!("settings in a row are told a word that they do not know")),
    })
}

/// The form of this name.
fn output_of(name: &str) -> anyhow::Result<Output> {
    Ok(match name {
        "nodes" => Output::Nodes,
        "values" => Output::Values,
        "texts" => Output::Texts,
        "raw" => Output::Raw,
        "rows" => Output::Rows,
        "lines" => Output::Lines,
        _ => return Err(anyhow::anyhow!("no form has the name that stands in a row")),
    })
}

/// The name of a form.
fn name_of(output: Output) -> &'static str {
    match output {
        Output::Nodes => "nodes",
        Output::Values => "values",
        Output::Texts => "texts",
        Output::Raw => "raw",
        Output::Rows => "rows",
        Output::Lines => "lines",
    }
}

/// What settings have.
#[derive(Drop, Serialize)]
struct SettingsAnswer<'s> {
    cut: Cut,
    keep_going: bool,
    decimals: bool,
    documents: bool,
    /// Whether U+0000 ends values.
    null: bool,
    /// The name of the form of an answer.
    form: &'static str,
    name: Option<&'s str>,
    filter: Option<&'s str>,
}

/// A fault in the place of an answer.
#[derive(Drop, Serialize)]
pub struct FaultAnswer {
    pub fault: String,
}

/// The answer to settings: what they have, or their fault.
pub fn answer_settings(alloc: Global, row: Row<'_>) -> anyhow::Result<String> {
    row.has_only(&["cut", "settings"])?;
    let settings = match settings_of(cut_of(row)?, row.items("settings")?)? {
        Ok(settings) => settings,
        Err(fault) => {
            let fault = format!(in alloc; "{fault}")?;
            return Ok(serde_json::to_string(alloc, &FaultAnswer { fault })?);
        }
    };
    let answer = SettingsAnswer {
        cut: (settings.workers, settings.piece, settings.batch),
        keep_going: settings.on_fault == OnFault::KeepGoing,
        decimals: settings.numbers == Numbers::Decimals,
        documents: settings.cutting == Cutting::Documents,
        null: settings.ending == Ending::Null,
        form: name_of(settings.output),
        name: settings.name,
        filter: settings.filter,
    };
    Ok(serde_json::to_string(alloc, &answer)?)
}
