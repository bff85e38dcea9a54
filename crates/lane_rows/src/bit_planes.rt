//! The lanes in which patterns drive nets with 1, or with 0: a word of bits for each net.
ghost use Rattle.std.specs.Prelude.{◌≡◌, ℕ, ◌/◌, ◌%◌, ◌<◌, ◌≤◌, ◌==◌, true, false, if◌then◌else◌, length, slice_index, slice_index_or, All, IfOk};
ghost use Rattle.scan_model.specs.ChainShift.{value_at};
ghost use Rattle.lane_rows.specs.DrivenParts.{part_values, driven_value, HasPart, FitsPart};
ghost use Rattle.lane_rows.specs.BitPlanes.{has_bit, is_in, is_same, value_of};

use scan_model::{NoMemory, Pattern, Tri};
use std::alloc::Global;

/// The patterns of a byte, whose lanes are written many nets at a time.
const BYTE_PATTERNS: usize = 8;

/// The values of a pattern that drive some nets: those of the inputs, or the load of a chain.
#[derive(Clone, Copy)]
pub(crate) enum DrivenPart {
    Inputs,
    Load(usize),
}

/// The lanes that are 1, or those that are 0.
#[derive(Clone, Copy)]
pub(crate) enum Plane {
    Ones,
    Zeros,
}

fn values_of(pattern: &Pattern, part: DrivenPart) -> &[Tri]
    requires { HasPart part pattern.now }
    ensures { result.now ≡ part_values part pattern.now }
{
    match part {
        DrivenPart::Inputs => pattern.inputs.as_slice(),
        DrivenPart::Load(chain) => pattern.loads.as_slice()[chain].as_slice(),
    }
}

/// The value whose lanes a plane has.
fn value_of(plane: Plane) -> Tri
    ensures { result ≡ value_of plane }
{
    match plane {
        Plane::Ones => Tri::One,
        Plane::Zeros => Tri::Zero,
    }
}

fn is_same(wanted: Tri, value: Tri) -> bool
    ensures { result ≡ is_same wanted value }
{
    value == wanted
}

/// The byte with one bit, which was clear, set or not.
fn with_bit(byte: u8, at: usize, is_set: bool) -> u8
    requires lane { at < 8 }
    requires blank { has_bit byte at ≡ false }
    ensures { (i : ℕ) → has_bit result i ≡ (if i == at then is_set else has_bit byte i) }
{
    byte | (u8::from(is_set) << at)
}

/// The word with one of its bytes, which had no bit.
fn with_byte(word: u64, at: usize, byte: u8) -> u64
    requires byte { at < 8 }
    requires blank { (j : ℕ) → j / 8 ≡ at → has_bit word j ≡ false }
    ensures { (j : ℕ) → has_bit result j ≡ (if j / 8 == at then has_bit byte (j % 8) else has_bit word j) }
{
    word | (u64::from(byte) << (8 * at))
}

/// Sets one lane, which was clear, of each net whose value the plane has.
fn mark_lane(bytes: &mut [u8], values: &[Tri], plane: Plane, at: usize)
    requires lane { at < 8 }
    requires fits { length values.now ≤ length bytes.old }
    requires blank { (i : ℕ) → has_bit (slice_index bytes.old i) at ≡ false }
    ensures there { (i : ℕ) → has_bit (slice_index bytes.new i) at ≡ is_in plane (value_at values.now i) }
    ensures elsewhere { (i j : ℕ) → (j == at) ≡ false → has_bit (slice_index bytes.new i) j ≡ has_bit (slice_index bytes.old i) j }
{
    let wanted = value_of(plane);
    for i in 0..values.len() {
        bytes[i] = with_bit(bytes[i], at, is_same(wanted, values[i]));
    }
}

/// Sets the lanes of a plane in up to eight patterns, pattern by pattern, in bytes that are clear.
fn mark_lanes(bytes: &mut [u8], patterns: &[Pattern], part: DrivenPart, plane: Plane)
    requires few { length patterns.now ≤ 8 }
    requires fit { All (FitsPart part (length bytes.old)) patterns.now }
    requires blank { (i j : ℕ) → j < 8 → has_bit (slice_index bytes.old i) j ≡ false }
    ensures { (i j : ℕ) → j < 8 → has_bit (slice_index bytes.new i) j ≡ is_in plane (driven_value part patterns.now j i) }
{
    for at in 0..patterns.len() {
        mark_lane(bytes, values_of(&patterns[at], part), plane, at);
    }
}

/// Whether each pattern has a value for each of so many nets.
fn are_full(patterns: &[Pattern], part: DrivenPart, nets: usize) -> bool
    requires { All (HasPart part) patterns.now }
    ensures { result ≡ true → All (λ p. length (part_values part p) ≡ nets) patterns.now }
{
    for pattern in patterns {
        if values_of(pattern, part).len() != nets {
            return false;
        }
    }
    true
}

/// The byte of eight bits.
fn byte_of(are_set: [bool; 8]) -> u8
    ensures { (j : ℕ) → j < 8 → has_bit result j ≡ slice_index_or are_set j false }
{
    let mut byte = 0;
    for at in 0..BYTE_PATTERNS {
        byte = with_bit(byte, at, are_set[at]);
    }
    byte
}

/// Writes the lanes of a plane in eight patterns that have a value for each net.
fn write_lanes(bytes: &mut [u8], patterns: &[Pattern], part: DrivenPart, plane: Plane)
    requires eight { length patterns.now ≡ 8 }
    requires has { All (HasPart part) patterns.now }
    requires full { All (λ p. length (part_values part p) ≡ length bytes.old) patterns.now }
    ensures { (i j : ℕ) → j < 8 → i < length bytes.old → has_bit (slice_index bytes.new i) j ≡ is_in plane (driven_value part patterns.now j i) }
{
    let wanted = value_of(plane);
    let a = values_of(&patterns[0], part);
    let b = values_of(&patterns[1], part);
    let c = values_of(&patterns[2], part);
    let d = values_of(&patterns[3], part);
    let e = values_of(&patterns[4], part);
    let f = values_of(&patterns[5], part);
    let g = values_of(&patterns[6], part);
    let h = values_of(&patterns[7], part);
    for i in 0..bytes.len() {
        bytes[i] = byte_of([
            is_same(wanted, a[i]),
            is_same(wanted, b[i]),
            is_same(wanted, c[i]),
            is_same(wanted, d[i]),
            is_same(wanted, e[i]),
            is_same(wanted, f[i]),
            is_same(wanted, g[i]),
            is_same(wanted, h[i]),
        ]);
    }
}

/// The lanes of a plane in up to eight patterns, a byte for each of so many nets.
fn plane_bytes(
    alloc: Global,
    patterns: &[Pattern],
    part: DrivenPart,
    nets: usize,
    plane: Plane,
) -> Result<Vec<u8>, NoMemory>
    requires few { length patterns.now ≤ 8 }
    requires fit { All (FitsPart part nets) patterns.now }
    ensures len { IfOk result (λ bytes. length bytes.items ≡ nets) }
    ensures lanes { IfOk result (λ bytes. (i j : ℕ) → i < nets → j < 8 → has_bit (slice_index bytes.items i) j ≡ is_in plane (driven_value part patterns.now j i)) }
{
    let mut bytes = vec![in alloc; 0u8; nets]?;
    if patterns.len() == BYTE_PATTERNS && are_full(patterns, part, nets) {
        write_lanes(&mut bytes, patterns, part, plane);
    } else {
        mark_lanes(&mut bytes, patterns, part, plane);
    }
    Ok(bytes)
}

/// Writes one of the eight bytes of each word, which was clear.
fn put_bytes(words: &mut [u64], bytes: &[u8], at: usize)
    requires byte { at < 8 }
    requires fits { length bytes.now ≡ length words.old }
    requires blank { (i j : ℕ) → j / 8 ≡ at → has_bit (slice_index words.old i) j ≡ false }
    ensures there { (i j : ℕ) → i < length words.old → j / 8 ≡ at → has_bit (slice_index words.new i) j ≡ has_bit (slice_index bytes.now i) (j % 8) }
    ensures elsewhere { (i j : ℕ) → (j / 8 == at) ≡ false → has_bit (slice_index words.new i) j ≡ has_bit (slice_index words.old i) j }
{
    for i in 0..words.len() {
        words[i] = with_byte(words[i], at, bytes[i]);
    }
}

/// The lanes of a plane in up to 64 patterns, a word for each of so many nets.
pub(crate) fn plane_words(
    alloc: Global,
    patterns: &[Pattern],
    part: DrivenPart,
    nets: usize,
    plane: Plane,
) -> Result<Vec<u64>, NoMemory>
    requires few { length patterns.now ≤ 64 }
    requires fit { All (FitsPart part nets) patterns.now }
    ensures len { IfOk result (λ words. length words.items ≡ nets) }
    ensures lanes { IfOk result (λ words. (i j : ℕ) → i < nets → j < 64 → has_bit (slice_index words.items i) j ≡ is_in plane (driven_value part patterns.now j i)) }
{
    let mut words = vec![in alloc; 0u64; nets]?;
    for at in 0..patterns.len().div_ceil(BYTE_PATTERNS) {
        let start = BYTE_PATTERNS * at;
        let count = (patterns.len() - start).min(BYTE_PATTERNS);
        let bytes = plane_bytes(alloc, &patterns[start..start + count], part, nets, plane)?;
        put_bytes(&mut words, &bytes, at);
    }
    Ok(words)
}
