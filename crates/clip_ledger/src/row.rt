//! A row of the ledger.
ghost use Rattle.std.specs.Prelude.{◌≡◌, IfOk, option_map};
ghost use Rattle.std.specs.Option.{option_copied};
ghost use Rattle.std.specs.Arc.{arc_str_bytes};
ghost use Rattle.clip_standing.specs.Alerts.{alert_value};
ghost use Rattle.clip_ledger.specs.Rows.{row_with, row_value, is_of};

use clip_meaning::Hit;
use clip_standing::Alert;
use clip_words::NoMemory;
use std::alloc::Global;
use std::sync::ArcStr;

/// An alert of a line, with what its listener said of it. Its texts are shared.
#[derive(Debug, Drop)]
pub struct Row {
    /// The number of the line that the article came in.
    pub line: u64,
    /// The article's id.
    pub article: ArcStr,
    /// The query's id.
    pub query: ArcStr,
    /// The name of the query's listener, if it has one.
    pub listener: Option<ArcStr>,
    /// Where in the article the query holds, in order.
    pub hits: Vec<Hit>,
    /// What the query's listener said, if it is here.
    pub text: Option<ArcStr>,
}

/// Another owner of a text.
fn share(text: Option<&ArcStr>) -> Result<Option<ArcStr>, NoMemory>
    ensures { IfOk result (λ copy. option_map arc_str_bytes copy
        ≡ option_map arc_str_bytes (option_copied text.entry)) }
{
    match text {
        Some(text) => Ok(Some(text.clone()?)),
        None => Ok(None),
    }
}

impl Row {
    /// The row of an alert, with what its listener said.
    pub(crate) fn of(
        alloc: Global,
        line: u64,
        alert: &Alert,
        text: Option<&ArcStr>,
    ) -> Result<Row, NoMemory>
        ensures { IfOk result (λ row. row_value row
            ≡ row_with line (alert_value alert.now) (option_map arc_str_bytes (option_copied text.entry))) }
    {
        let listener = share(alert.listener())?;
        let text = share(text)?;
        Ok(Row {
            line,
            article: alert.article().shared_id().clone()?,
            query: alert.query().clone()?,
            listener,
            hits: alert.hits(alloc)?,
            text,
        })
    }

    /// Whether its listener has the name.
    pub(crate) fn is_of(&self, name: &str) -> bool
        ensures { result ≡ is_of name.now (row_value self.now) }
    {
        match &self.listener {
            Some(listener) => listener.as_str() == name,
            None => false,
        }
    }
}
