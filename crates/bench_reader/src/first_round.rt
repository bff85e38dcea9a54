//! The first round: each line by itself and after those before it.

ghost use Rattle.std.specs.Prelude.{◌≡◌, ◌≤◌, ◌<◌, ◌+◌, ◌^◌, ℕ, List, [], ◌∷◌, ◌++◌, length, map, IfOk, OnOk, Ok, None, Some, not, true, false};
ghost use Rattle.std.specs.List.{list_any, enumerate_from};
ghost use Rattle.scan_model.specs.Words.{is_short, has_word};
ghost use Rattle.scan_model.specs.TextFaults.{lowest};
ghost use Rattle.scan_model.specs.NetlistLines.{form_of, input, output, definition, driver_named};
ghost use Rattle.scan_model.specs.NetlistRules.{first_rules, makes_past, net_limit, pin_limit};
ghost use Rattle.text_parts.specs.Views.{nows};
ghost use Rattle.bench_reader.specs.FirstRules.{is_wrong_count, passes_by, net_rules, form_rules};
ghost use Rattle.bench_reader.specs.NetUses.{use_views, operand_use};

use bench_lines::{Kind, takes_one};
use scan_model::{Driver, Name, Net, NoMemory, PinPlace, rules};
use std::alloc::{AllocError, Global};
use text_parts::{Names, has_refused_byte};

const NET_LIMIT: usize = 65_536;

const PIN_LIMIT: usize = 262_144;

fn is_short(name: &[u8]) -> bool
    ensures { result ≡ is_short name.now }
{
    name.len() <= 64
}

fn has_long(names: &[&[u8]]) -> bool
    ensures { result ≡ list_any (λ n. not (is_short n)) (nows names.now) }
{
    names.iter().any(|n| !is_short(n))
}

// The gate word takes another number of operands.
fn has_wrong_count(driver: Driver, operands: &[&[u8]]) -> bool
    ensures { result ≡ is_wrong_count (Some driver) (length (nows operands.now)) }
{
    if takes_one(Some(driver)) {
        operands.len() != 1
    } else {
        operands.is_empty()
    }
}

fn makes_past(earlier: usize, made: usize, limit: usize) -> bool
    requires { earlier ≤ limit }
    ensures past { result ≡ makes_past earlier made limit }
    ensures fits { result ≡ false → earlier + made ≤ limit }
{
    made > limit - earlier
}

/// A use of a net: the number of its line, counted from 1, the net's name, and where the pin is that it makes.
#[derive(Clone, Copy)]
pub struct Use<'a> {
    pub line: u64,
    pub name: &'a [u8],
    pub place: PinPlace,
}

// Adds the uses of a net's operands by the line of this number.
fn add_operands<'a>(
    uses: &mut Vec<Use<'a>>,
    line: u64,
    net: u32,
    operands: &[&'a [u8]],
) -> Result<(), AllocError>
    requires { length operands.now ≤ pin_limit }
    ensures { OnOk result (use_views uses.new.items ≡ use_views uses.old.items ++ map (operand_use line net) (enumerate_from 0 (nows operands.now))) }
{
    uses.reserve(operands.len())?;
    for (i, name) in operands.iter().enumerate() {
        let index = i as u32;
        uses.push_reserved(Use {
            line,
            name,
            place: PinPlace::Operand { net, index },
        });
    }
    Ok(())
}

/// The draft of a netlist, by its lines so far: its nets, inputs and uses of nets; the names of the nets, each with the
/// number of the line that defines it; and the names of the outputs.
#[derive(Drop)]
pub struct NetlistDraft<'a> {
    pub nets: Vec<Net>,
    pub inputs: Vec<u32>,
    pub uses: Vec<Use<'a>>,
    pub defined: Names<'a>,
    pub net_lines: Vec<u64>,
    pub outputs: Names<'a>,
}

impl<'a> NetlistDraft<'a> {
    ghost use Rattle.bench_reader.specs.NetlistDrafts.{Keeps, AddsNames, TakesInput, TakesDefinition, TakesRest, Takes, IsWithin, IsAfter};

    /// The draft before the first of so many lines.
    pub fn new(alloc: Global, count: usize) -> Result<Self, AllocError>
        ensures within { IfOk result IsWithin }
        ensures after { IfOk result (λ draft. IsAfter draft []) }
    {
        let room = count.min(NET_LIMIT);
        let mut draft = NetlistDraft {
            nets: Vec::new(alloc),
            inputs: Vec::new(alloc),
            uses: Vec::new(alloc),
            defined: Names::with_room(alloc, room)?,
            net_lines: Vec::new(alloc),
            outputs: Names::new(alloc),
        };
        draft.make_room(room)?;
        Ok(draft)
    }

    // Takes the memory of so many nets at once, with two uses of each.
    fn make_room(&mut self, count: usize) -> Result<(), AllocError>
        requires { count ≤ net_limit }
        ensures { OnOk result (Keeps self.old self.new) }
    {
        self.nets.reserve(count)?;
        self.net_lines.reserve(count)?;
        self.uses.reserve(2 * count)?;
        Ok(())
    }

    // Rule 9: with so many nets and pins of one line more there are more than may be.
    fn is_passed_by(&self, nets: usize, pins: usize) -> bool
        requires { IsWithin self.now }
        ensures rule { result ≡ passes_by self.now.defined (length self.now.uses.items) nets pins }
        ensures nets { result ≡ false → length self.now.defined + nets ≤ net_limit }
        ensures pins { result ≡ false → length self.now.uses.items + pins ≤ pin_limit }
    {
        makes_past(self.defined.len(), nets, NET_LIMIT)
            || makes_past(self.uses.len(), pins, PIN_LIMIT)
    }

    // Adds the name of a net, defined by the line of this number, unless there is one; answers whether there was none.
    #[inline(always)]
    fn add_name(&mut self, number: u64, name: &'a [u8]) -> Result<bool, AllocError>
        ensures fresh { IfOk result (λ b. b ≡ not (has_word self.old.defined name.now)) }
        ensures added { result ≡ Ok true → AddsNames self.old self.new number (name.now ∷ []) }
    {
        if !self.defined.add_if_new(name)? {
            return Ok(false);
        }
        self.net_lines.push(number)?;
        Ok(true)
    }

    // Adds the name of the net that the line of this number defines with so many pins, or answers the lower one of
    // rules 6 and 9 that the line breaks.
    #[inline(always)]
    fn add_sound_name(
        &mut self,
        number: u64,
        net: &'a [u8],
        pins: usize,
    ) -> Result<Option<u32>, AllocError>
        requires { IsWithin self.old }
        ensures rule { IfOk result (λ r. r ≡ lowest (net_rules self.old.defined (length self.old.uses.items) net.now pins)) }
        ensures added { result ≡ Ok None → AddsNames self.old self.new number (net.now ∷ []) }
        ensures nets { result ≡ Ok None → length self.old.defined + 1 ≤ net_limit }
        ensures pins { result ≡ Ok None → length self.old.uses.items + pins ≤ pin_limit }
    {
        // Rule 9 counts the nets before this line, but rule 6 is the lower one.
        let is_past = self.is_passed_by(1, pins);
        if !self.add_name(number, net)? {
            return Ok(Some(rules::DEFINED_TWICE));
        }
        if is_past {
            return Ok(Some(rules::TOO_MANY_NETS_OR_PINS));
        }
        Ok(None)
    }

    // Adds the net of an input.
    fn add_input(&mut self, alloc: Global, name: &[u8]) -> Result<(), NoMemory>
        requires nets { length self.old.nets.items ≤ net_limit }
        requires uses { length self.old.uses.items ≤ pin_limit }
        ensures { OnOk result (TakesInput self.old self.new name.now) }
    {
        let number = self.nets.len() as u32;
        let first_pin = self.uses.len() as u32;
        self.nets.push(Net {
            name: Name::copy_of(alloc, name)?,
            driver: Driver::Input,
            first_pin,
            pin_count: 0,
        })?;
        self.inputs.push(number)?;
        Ok(())
    }

    // Adds an output that the line of this number names, unless there is one.
    fn add_output(&mut self, line: u64, name: &'a [u8]) -> Result<(), AllocError>
        requires { length self.old.outputs ≤ pin_limit }
        ensures { OnOk result (TakesRest self.old self.new line (output name.now)) }
    {
        let place = self.outputs.len() as u32;
        if self.outputs.add_if_new(name)? {
            self.uses.push(Use {
                line,
                name,
                place: PinPlace::Output { place },
            })?;
        }
        Ok(())
    }

    // Adds the net that the line of this number defines, with the uses of its operands.
    fn add_definition(
        &mut self,
        alloc: Global,
        line: u64,
        net: &[u8],
        driver: Driver,
        operands: &[&'a [u8]],
    ) -> Result<(), NoMemory>
        requires nets { length self.old.nets.items ≤ net_limit }
        requires uses { length self.old.uses.items + length operands.now ≤ pin_limit }
        ensures { OnOk result (TakesDefinition self.old self.new line net.now driver (nows operands.now)) }
    {
        let number = self.nets.len() as u32;
        self.nets.push(Net {
            name: Name::copy_of(alloc, net)?,
            driver,
            first_pin: self.uses.len() as u32,
            pin_count: operands.len() as u32,
        })?;
        add_operands(&mut self.uses, line, number, operands)?;
        Ok(())
    }

    // Takes the line of this number that names an input, or answers the lowest rule that it breaks.
    fn take_input(
        &mut self,
        alloc: Global,
        number: u64,
        net: &'a [u8],
    ) -> Result<Option<u32>, NoMemory>
        requires { IsWithin self.old }
        ensures rule { IfOk result (λ r. r ≡ lowest (form_rules self.old.defined self.old.outputs (length self.old.uses.items) (input net.now))) }
        ensures taken { result ≡ Ok None → Takes self.old self.new number (input net.now) }
        ensures within { result ≡ Ok None → IsWithin self.new }
    {
        if !is_short(net) {
            return Ok(Some(rules::LONG_NAME));
        }
        let rule = self.add_sound_name(number, net, 0)?;
        if rule.is_none() {
            self.add_input(alloc, net)?;
        }
        Ok(rule)
    }

    // Takes the line of this number that names an output, or answers the lowest rule that it breaks.
    fn take_output(&mut self, number: u64, net: &'a [u8]) -> Result<Option<u32>, AllocError>
        requires { IsWithin self.old }
        ensures rule { IfOk result (λ r. r ≡ lowest (form_rules self.old.defined self.old.outputs (length self.old.uses.items) (output net.now))) }
        ensures taken { result ≡ Ok None → Takes self.old self.new number (output net.now) }
        ensures within { result ≡ Ok None → IsWithin self.new }
    {
        if !is_short(net) {
            return Ok(Some(rules::LONG_NAME));
        }
        if self.is_passed_by(0, 1) && !self.outputs.contains(net) {
            return Ok(Some(rules::TOO_MANY_NETS_OR_PINS));
        }
        self.add_output(number, net)?;
        Ok(None)
    }

    // Takes the line of this number that defines a net otherwise, or answers the lowest rule that it breaks.
    fn take_definition(
        &mut self,
        alloc: Global,
        number: u64,
        net: &'a [u8],
        driver: Option<Driver>,
        operands: &[&'a [u8]],
    ) -> Result<Option<u32>, NoMemory>
        requires { IsWithin self.old }
        ensures rule { (word : List ℕ) → driver ≡ driver_named word → IfOk result (λ r. r ≡ lowest (form_rules self.old.defined self.old.outputs (length self.old.uses.items) (definition net.now word (nows operands.now)))) }
        ensures taken { (word : List ℕ) → driver ≡ driver_named word → result ≡ Ok None → Takes self.old self.new number (definition net.now word (nows operands.now)) }
        ensures within { result ≡ Ok None → IsWithin self.new }
    {
        let Some(driver) = driver else {
            return Ok(Some(rules::UNKNOWN_WORD));
        };
        if has_wrong_count(driver, operands) {
            return Ok(Some(rules::WRONG_COUNT));
        }
        if !is_short(net) || has_long(operands) {
            return Ok(Some(rules::LONG_NAME));
        }
        let rule = self.add_sound_name(number, net, operands.len())?;
        if rule.is_none() {
            self.add_definition(alloc, number, net, driver, operands)?;
        }
        Ok(rule)
    }

    /// Takes the line of this number, or answers the lowest rule that it breaks. After a rule no more lines are to come.
    /// The line's operands take the place of those found before.
    pub fn take_line(
        &mut self,
        alloc: Global,
        operands: &mut Vec<&'a [u8]>,
        number: u64,
        bytes: &'a [u8],
    ) -> Result<Option<u32>, NoMemory>
        requires { IsWithin self.old }
        ensures rule { IfOk result (λ r. r ≡ lowest (first_rules self.old.defined self.old.outputs (length self.old.uses.items) bytes.now)) }
        ensures taken { result ≡ Ok None → Takes self.old self.new number (form_of bytes.now) }
        ensures within { result ≡ Ok None → IsWithin self.new }
    {
        let (kind, comment) = Kind::of_line(operands, bytes)?;
        if has_refused_byte(comment) {
            return Ok(Some(rules::REFUSED_BYTE));
        }
        match kind {
            Kind::Nothing => Ok(None),
            Kind::Input(net) => self.take_input(alloc, number, net),
            Kind::Output(net) => Ok(self.take_output(number, net)?),
            Kind::Definition { net, driver, .. } => {
                self.take_definition(alloc, number, net, driver, operands)
            }
            Kind::NoForm => Ok(Some(rules::NO_FORM)),
        }
    }
}
