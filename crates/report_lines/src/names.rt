//! The words of a report.
ghost use Rattle.std.specs.Prelude.{◌≡◌, ℕ, ◌++◌, ◌<◌, OnOk};
ghost use Rattle.scan_model.specs.ReportText as text_of;
ghost use Rattle.fault_universe.specs.LineWords.{after_spaces};

use scan_model::{Name, NoMemory};

/// The words of a report: those of its title, of its points and of its faults.
pub trait ReportNames {
    ghost form: { Self → text_of.ReportForm };

    ghost points: { Self → ℕ };

    ghost places: { Self → ℕ };

    /// What stands in the first line before the version.
    fn title(&self) -> &[u8]
        ensures { result.now ≡ (form self.now).title };

    /// Adds the words of a point, a space before each.
    fn push_point(&self, line: &mut Name, point: u32) -> Result<(), NoMemory>
        requires { point < points self.now }
        ensures { OnOk result (line.new ≡ line.old ++ after_spaces ((form self.now).point point)) };

    /// Adds the words of the fault at a place, a space before each.
    fn push_place(&self, line: &mut Name, place: u32) -> Result<(), NoMemory>
        requires { place < places self.now }
        ensures { OnOk result (line.new ≡ line.old ++ after_spaces ((form self.now).fault place)) };
}
