//! Gate words.

ghost use Rattle.std.specs.Prelude.{◌≡◌, Some, IfSome};
ghost use Rattle.scan_model.specs.NetlistLines.{driver_named, takes_one};

use scan_model::{Driver, GateKind};

// What a gate word makes of a net, if it stands in capitals, as almost all do: no letter's case is to be changed.
fn driver_in_capitals(word: &[u8]) -> Option<Driver>
    ensures { IfSome result (λ driver. driver_named word.now ≡ Some driver) }
{
    match word {
        b"AND" => Some(Driver::Gate(GateKind::And)),
        b"NAND" => Some(Driver::Gate(GateKind::Nand)),
        b"OR" => Some(Driver::Gate(GateKind::Or)),
        b"NOR" => Some(Driver::Gate(GateKind::Nor)),
        b"XOR" => Some(Driver::Gate(GateKind::Xor)),
        b"XNOR" => Some(Driver::Gate(GateKind::Xnor)),
        b"NOT" => Some(Driver::Gate(GateKind::Not)),
        b"BUF" | b"BUFF" => Some(Driver::Gate(GateKind::Buf)),
        b"DFF" => Some(Driver::Flop),
        _ => None,
    }
}

/// What a gate word makes of a net.
pub fn driver_named(word: &[u8]) -> Option<Driver>
    ensures { result ≡ driver_named word.now }
{
    if let Some(driver) = driver_in_capitals(word) {
        return Some(driver);
    }
    if word.eq_ignore_ascii_case(b"AND") {
        return Some(Driver::Gate(GateKind::And));
    }
    if word.eq_ignore_ascii_case(b"NAND") {
        return Some(Driver::Gate(GateKind::Nand));
    }
    if word.eq_ignore_ascii_case(b"OR") {
        return Some(Driver::Gate(GateKind::Or));
    }
    if word.eq_ignore_ascii_case(b"NOR") {
        return Some(Driver::Gate(GateKind::Nor));
    }
    if word.eq_ignore_ascii_case(b"XOR") {
        return Some(Driver::Gate(GateKind::Xor));
    }
    if word.eq_ignore_ascii_case(b"XNOR") {
        return Some(Driver::Gate(GateKind::Xnor));
    }
    if word.eq_ignore_ascii_case(b"NOT") {
        return Some(Driver::Gate(GateKind::Not));
    }
    if word.eq_ignore_ascii_case(b"BUF") {
        return Some(Driver::Gate(GateKind::Buf));
    }
    if word.eq_ignore_ascii_case(b"BUFF") {
        return Some(Driver::Gate(GateKind::Buf));
    }
    if word.eq_ignore_ascii_case(b"DFF") {
        return Some(Driver::Flop);
    }
    None
}

/// Whether a gate word takes one operand.
pub fn takes_one(driver: Option<Driver>) -> bool
    ensures { result ≡ takes_one driver }
{
    matches!(
        driver,
        Some(Driver::Flop | Driver::Gate(GateKind::Not | GateKind::Buf))
    )
}
