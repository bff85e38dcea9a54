//! Views of a die: how its logs are read, and what is reported of them.
ghost use Rattle.std.specs.Prelude.{◌≡◌, ◌≤◌, ℕ, List, [], length, map, Some, IfOk, true};
ghost use Rattle.desk_outside.specs.declared.shelf.File.{File};
ghost use Rattle.desk_outside.specs.Faults.{Rose};
ghost use Rattle.scan_model.specs.declared.logs.LogFacts.{LogFacts};
ghost use Rattle.scan_model.specs.Coverage.{FitsLog};
ghost use Rattle.scan_model.specs.LogText.{LogFrame, log_reading};
ghost use Rattle.scan_model.specs.Words.{has_word};
ghost use Rattle.scan_model.specs.DieReport.{different};
ghost use Rattle.text_parts.specs.ReadResults.{Gives};
ghost use Rattle.log_join.specs.Joining.{StandsFor};
ghost use Rattle.desk_commands.specs.Logs.{AreJoined, IsJoinedFor, StandsForSome, read_logs};
ghost use Rattle.desk_commands.specs.CommandStops.{Follows, ends_by_fault};
ghost use Rattle.desk_commands.specs.Work.{logs_report};

use crate::files::Stop;
use crate::logs::{DieLogs, add_logs};
use desk_outside::Shelf;
use log_join::Joined;
use scan_model::{LogFacts, Name, NoMemory, Rows};
use std::alloc::Global;
use std::marker::Model;
use text_parts::ReadFault;

/// How the logs of a die are read, and what is reported of them.
pub trait View {
    ghost use Rattle.scan_model.specs.declared.logs.LogFacts.{LogFacts};
    ghost use Rattle.scan_model.specs.LogText.{LogFrame};

    /// What it is made of belongs together.
    ghost sound: { Self → Type 0 };

    /// What logs are read for.
    ghost frame: { Self → LogFrame };

    /// The report of some logs.
    ghost report: { Self → List LogFacts → List ℕ };

    /// No logs, joined.
    fn no_logs(&self, alloc: Global) -> Result<Joined, NoMemory>
        requires { sound self.now }
        ensures size { IfOk result (IsJoinedFor (frame self.now)) }
        ensures empty { IfOk result (StandsFor []) };

    /// What a log stands for.
    fn log(&self, alloc: Global, bytes: &[u8]) -> Result<LogFacts, ReadFault>
        requires { sound self.now }
        ensures reading { Gives (λ log. log) result (log_reading (frame self.now) bytes.now) }
        ensures fits { IfOk result (FitsLog (length (frame self.now).shifts) (length (frame self.now).points)) };

    /// The report of so many joined logs.
    fn text(&self, alloc: Global, joined: &Joined, count: u64) -> Result<Name, NoMemory>
        requires sound { sound self.now }
        requires joined { IsJoinedFor (frame self.now) joined.now }
        requires stands { StandsForSome joined.now }
        ensures { (logs : List LogFacts) → StandsFor logs joined.now → count ≡ length logs → IfOk result (λ text. text ≡ report self.now logs) };
}

/// Different logs in a view, joined. Contracts see what they are read for and their texts.
#[derive(Drop)]
struct JoinedLogs<'v, V: View> {
    view: &'v V,
    texts: Rows<Name>,
    joined: Joined,
}

impl<'v, V: View> Model for JoinedLogs<'v, V> {
    ghost use Rattle.desk_commands.specs.Logs.{JoinedTexts, AreJoined};

    ghost Value = { JoinedTexts };

    ghost view = { λ l. record { frame = V.frame l.view.now; texts = l.texts } };

    ghost invariant = { λ l. V.sound l.view.now × AreJoined (record { frame = V.frame l.view.now; texts = l.texts }) l.joined };
}

impl<'v, V: View> JoinedLogs<'v, V> {
    // No logs.
    fn make(alloc: Global, view: &'v V) -> Result<JoinedLogs<'v, V>, NoMemory>
        requires { V.sound view.now }
        ensures { IfOk result (λ l. l ≡ record { frame = V.frame view.now; texts = [] }) }
    {
        let joined = view.no_logs(alloc)?;
        Ok(JoinedLogs {
            view,
            texts: Rows::new(alloc),
            joined,
        })
    }

    // The logs, joined.
    fn joined(&self) -> &Joined
        ensures { AreJoined self.now result.now }
    {
        &self.joined
    }

    // How many there are.
    fn count(&self) -> u64
        ensures { result ≡ length self.now.texts }
    {
        self.texts.len() as u64
    }
}

fn has_text(texts: &[Name], text: &[u8]) -> bool
    ensures { result ≡ has_word texts.now text.now }
{
    texts.iter().any(|other| text == other.as_slice())
}

impl<'v, V: View> DieLogs for JoinedLogs<'v, V> {
    ghost use Rattle.std.specs.Prelude.{[]};

    ghost frame = { λ l. l.frame };

    ghost texts = { λ l. l.texts };

    ghost bare = { λ l. record { frame = l.frame; texts = [] } };

    fn add_text(&mut self, alloc: Global, text: Name) -> Result<(), ReadFault> {
        let facts = self.view.log(alloc, text.as_slice())?;
        if has_text(self.texts.as_slice(), text.as_slice()) {
            return Ok(());
        }
        self.texts.push(text)?;
        self.joined.add(&facts);
        Ok(())
    }
}

/// The report of the logs in the files of these names.
pub fn view_report<'a, F: Shelf, V: View>(
    alloc: Global,
    shelf: &mut F,
    view: &V,
    names: &[&'a str],
) -> Result<Name, Stop<'a>>
    requires { V.sound view.now }
    ensures told { (held : List File) → F.files shelf.old ≡ Some held
        → Follows result (logs_report held (V.frame view.now) (map (λ name. name.now) names.now) (λ texts. V.report view.now (read_logs (V.frame view.now) (different texts)))) }
    ensures fault { ends_by_fault result ≡ true → Rose (F.faults shelf.old) (F.faults shelf.new) }
    ensures later { F.faults shelf.old ≤ F.faults shelf.new }
{
    let mut logs = JoinedLogs::make(alloc, view)?;
    add_logs(alloc, shelf, &mut logs, names)?;
    Ok(view.text(alloc, logs.joined(), logs.count())?)
}
