//! Where the profile and the four texts of a design come from.
ghost use Rattle.std.specs.Prelude.{◌≡◌, ◌≤◌, ℕ, List, true, false};
ghost use Rattle.desk_outside.specs.Faults.{Rose};
ghost use Rattle.design_bundle.specs.Sections.{four_texts};
ghost use Rattle.diagnosis.specs.Texts.{Source};
ghost use Rattle.diagnosis.specs.TextHalts.{Halt, IsHad, place_of, refused, no_memory, is_failure, ends_by_failure};
ghost use Rattle.diagnosis.specs.Bundle.{texts_source};
ghost use Rattle.diagnosis.specs.Sections.{section_of, halt_of};

use crate::section::{BundleFault, DesignText, Section};
use design_bundle::Sections;
use scan_model::Profile;
use std::alloc::Global;
use text_parts::TextFault;

/// What gives the profile of a design and its four texts, by means of something outside that it is
/// lent.
pub trait TextSource<O> {
    type Text: Drop;

    /// Why reading stops.
    type Stop: Drop;

    // What names a text, why a text is refused, and what is known of the outside: contracts alone speak of them.
    type Name;

    type Cause;

    type Knowledge;

    ghost use Rattle.diagnosis.specs.Texts.{Source};
    ghost use Rattle.diagnosis.specs.TextHalts.{Halt};

    /// The bytes of a text.
    ghost shows: { Self.Text → List ℕ };

    ghost halt: { Self.Stop → Halt Self.Name Self.Cause };

    ghost known: { O → Self.Knowledge };

    /// How often the outside has failed.
    ghost faults: { O → ℕ };

    /// The texts, where they are known.
    ghost tells: { Self → Self.Knowledge → Source Self.Name Self.Cause → Type 0 };

    /// The profile of the design.
    fn profile(&self) -> Profile
        ensures { (seen : Self.Knowledge) (source : Source Self.Name Self.Cause) → tells self.now seen source → result ≡ source.profile };

    /// One of the texts.
    fn text(
        &self,
        alloc: Global,
        outside: &mut O,
        part: DesignText,
    ) -> Result<Self::Text, Self::Stop>
        ensures had { (source : Source Self.Name Self.Cause) → tells self.now (known outside.old) source → IsHad shows halt (place_of source part) result }
        ensures fault { ends_by_failure halt result ≡ true → Rose (faults outside.old) (faults outside.new) }
        ensures same { known outside.new ≡ known outside.old }
        ensures later { faults outside.old ≤ faults outside.new };

    fn bytes<'t>(&self, text: &'t Self::Text) -> &'t [u8]
        ensures { result.now ≡ shows text.now };

    /// The stop for the first fault of a text.
    fn stop(&self, part: DesignText, fault: TextFault) -> Self::Stop
        ensures told { (seen : Self.Knowledge) (source : Source Self.Name Self.Cause) → tells self.now seen source
            → halt result ≡ refused (place_of source part).name (source.rule (fault.line, fault.rule)) }
        ensures sure { is_failure (halt result) ≡ false };

    /// The stop for want of memory.
    fn stop_for_memory(&self) -> Self::Stop
        ensures { halt result ≡ no_memory };
}

// The section of a text in a bundle.
fn section_of(part: DesignText) -> Section
    ensures { result ≡ section_of part }
{
    match part {
        DesignText::Netlist => Section::Netlist,
        DesignText::Scan => Section::Scan,
        DesignText::Patterns => Section::Patterns,
        DesignText::Neighbours => Section::Neighbours,
    }
}

impl<'a> TextSource<()> for Sections<'a> {
    type Text = &'a [u8];

    type Stop = BundleFault;

    type Name = Section;

    type Cause = (u64, u64);

    type Knowledge = ();

    ghost use Rattle.std.specs.Prelude.{◌≡◌};
    ghost use Rattle.design_bundle.specs.Sections.{four_texts};
    ghost use Rattle.diagnosis.specs.Bundle.{texts_source};
    ghost use Rattle.diagnosis.specs.Sections.{halt_of};

    ghost shows = { λ text. text.now };

    ghost halt = { halt_of };

    ghost known = { λ outside. outside };

    ghost faults = { λ _. 0 };

    ghost tells = { λ texts _ source. source ≡ texts_source (four_texts texts) };

    fn profile(&self) -> Profile {
        self.profile
    }

    fn text(
        &self,
        _alloc: Global,
        _outside: &mut (),
        part: DesignText,
    ) -> Result<&'a [u8], BundleFault> {
        Ok(match part {
            DesignText::Netlist => self.netlist,
            DesignText::Scan => self.scan,
            DesignText::Patterns => self.patterns,
            DesignText::Neighbours => self.neighbours,
        })
    }

    fn bytes<'t>(&self, text: &'t &'a [u8]) -> &'t [u8] {
        text
    }

    fn stop(&self, part: DesignText, fault: TextFault) -> BundleFault {
        BundleFault::Text {
            section: section_of(part),
            fault,
        }
    }

    fn stop_for_memory(&self) -> BundleFault {
        BundleFault::NoMemory
    }
}
