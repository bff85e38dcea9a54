//! The second round: finds the net of each use by its name.

ghost use Rattle.std.specs.Prelude.{◌≡◌, ◌≤◌, map, length, position, None, OnOk, IfOk, IfErr};
ghost use Rattle.std.specs.Str.{bytes_eq};
ghost use Rattle.scan_model.specs.NetlistRules.{net_limit};
ghost use Rattle.scan_model.specs.NetlistText.{net_number};
ghost use Rattle.text_parts.specs.Views.{nows};
ghost use Rattle.bench_reader.specs.NetUses.{use_views, use_pin, undefined_use, IsUndefined};

use crate::first_round::Use;
use scan_model::{NoMemory, Pin, Rows, rules};
use std::alloc::Global;
use text_parts::{Names, ReadFault, TextFault};

// The number of the net of this name, if there is one.
fn known_number(defined: &Names<'_>, name: &[u8]) -> Option<u32>
    requires { length defined.now ≤ net_limit }
    ensures { result ≡ position (bytes_eq name.now) defined.now }
{
    let place = defined.place(name)?;
    Some(place as u32)
}

// The number of a net, or how many nets there are where none has the name.
fn number_of(defined: &Names<'_>, name: &[u8]) -> u32
    requires { length defined.now ≤ net_limit }
    ensures { result ≡ net_number defined.now name.now }
{
    defined.place_or_len(name) as u32
}

/// The numbers of nets, by their names.
pub fn numbers_of(
    alloc: Global,
    defined: &Names<'_>,
    names: &[&[u8]],
) -> Result<Rows<u32>, NoMemory>
    requires { length defined.now ≤ net_limit }
    ensures { IfOk result (λ v. v ≡ map (net_number defined.now) (nows names.now)) }
{
    let mut numbers = Rows::new(alloc);
    for name in names {
        numbers.push(number_of(defined, name))?;
    }
    Ok(numbers)
}

/// The pins that uses make, or the first use of a net that no line defines.
pub fn pins_of(alloc: Global, defined: &Names<'_>, uses: &[Use<'_>]) -> Result<Rows<Pin>, ReadFault>
    requires { length defined.now ≤ net_limit }
    ensures fault { IfErr result (λ e. IsUndefined e (undefined_use defined.now (use_views uses.now))) }
    ensures known { OnOk result (undefined_use defined.now (use_views uses.now) ≡ None) }
    ensures pins { IfOk result (λ pins. pins ≡ map (use_pin defined.now) (use_views uses.now)) }
{
    let mut pins = Vec::with_capacity(alloc, uses.len())?;
    for used in uses {
        let Some(net) = known_number(defined, used.name) else {
            let line = used.line;
            let rule = rules::UNDEFINED_NET;
            return Err(ReadFault::Text(TextFault { line, rule }));
        };
        let place = used.place;
        pins.push_reserved(Pin { net, place });
    }
    Ok(Rows::from_vec(pins))
}
