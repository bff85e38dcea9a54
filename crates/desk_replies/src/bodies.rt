//! Bodies of replies, made with no memory.
ghost use Rattle.std.specs.Prelude.{◌≡◌, ◌≤◌, length};
ghost use Rattle.desk_replies.specs.Statuses.{refusal_status};
ghost use Rattle.desk_replies.specs.Bodies as body;

use crate::short::ShortText;
use crate::status::Status;
use book::Section;
use desk_heads::HeadFault;
use scan_model::Digest;
use text_parts::TextFault;

/// A refusal whose body is fixed.
#[derive(Clone, Copy, PartialEq, Eq)]
pub enum Refusal {
    /// The head is refused.
    Head(HeadFault),
    /// No route has the target.
    NoRoute,
    /// The route hasn't the method.
    MethodNotAllowed,
    /// Rule 83: no design has the name.
    UnknownDesign,
    /// Rule 84: the die has no log.
    UnknownDie,
}

impl Refusal {
    /// The status of the reply.
    pub fn status(&self) -> Status
        ensures { result ≡ refusal_status self.now }
    {
        match self {
            Refusal::Head(HeadFault::BadRequest) => Status::BadRequest,
            Refusal::Head(HeadFault::LengthRequired) => Status::LengthRequired,
            Refusal::Head(HeadFault::TooLarge) => Status::ContentTooLarge,
            Refusal::Head(HeadFault::HeadTooLarge) => Status::HeadTooLarge,
            Refusal::Head(HeadFault::TransferEncoding) => Status::NotImplemented,
            Refusal::NoRoute | Refusal::UnknownDesign | Refusal::UnknownDie => Status::NotFound,
            Refusal::MethodNotAllowed => Status::MethodNotAllowed,
        }
    }

    /// The body, with no memory taken.
    pub fn body(&self) -> &'static [u8]
        ensures { result.now ≡ body.refusal_body self.now }
    {
        match self {
            Refusal::Head(HeadFault::BadRequest) => b"bad request\n",
            Refusal::Head(HeadFault::LengthRequired) => b"length required\n",
            Refusal::Head(HeadFault::TooLarge) => b"too large\n",
            Refusal::Head(HeadFault::HeadTooLarge) => b"head too large\n",
            Refusal::Head(HeadFault::TransferEncoding) => b"transfer encoding\n",
            Refusal::NoRoute => b"no route\n",
            Refusal::MethodNotAllowed => b"method not allowed\n",
            Refusal::UnknownDesign => b"rule 83\n",
            Refusal::UnknownDie => b"rule 84\n",
        }
    }
}

/// A text that may break a rule, by the word that a body has for it.
#[derive(Clone, Copy, PartialEq, Eq)]
pub enum TextKind {
    /// A bundle, a section of one, or a fail log.
    Section(Section),
    /// A sign-off.
    SignOff,
}

impl TextKind {
    /// The word for the text.
    fn word(&self) -> &'static str
        ensures word { result.now ≡ body.kind_word self.now }
        ensures short { length result.now ≤ 10 }
    {
        match self {
            TextKind::Section(Section::Bundle) => "bundle",
            TextKind::Section(Section::Netlist) => "netlist",
            TextKind::Section(Section::Scan) => "scan",
            TextKind::Section(Section::Patterns) => "patterns",
            TextKind::Section(Section::Neighbours) => "neighbours",
            TextKind::Section(Section::Log) => "log",
            TextKind::SignOff => "signoff",
        }
    }
}

// A line of words and a number.
fn number_body(words: &[u8], number: u64) -> ShortText
    requires { length words.now ≤ 64 }
    ensures { result ≡ body.number_line words.now number }
{
    let mut text = ShortText::new();
    text.add_number_line(words, number);
    text
}

// A line of words and a digest.
fn digest_body(words: &[u8], digest: &Digest) -> ShortText
    requires { length words.now ≤ 64 }
    ensures { result ≡ body.digest_line words.now digest.now }
{
    let mut text = ShortText::new();
    text.add_digest_line(words, digest);
    text
}

/// A design that was put, by its name, a tag, and the digest of its bundle.
pub fn design_body(name: &[u8], digest: &Digest) -> ShortText
    requires { length name.now ≤ 64 }
    ensures { result ≡ body.design_body name.now digest.now }
{
    let mut text = ShortText::new();
    text.add(b"design ");
    text.add_digest_line(name, digest);
    text
}

/// A log that was put, by its number from 1 among those of its die.
pub fn log_body(number: u64) -> ShortText
    ensures { result ≡ body.log_body number }
{
    number_body(b"log", number)
}

/// A sign-off that was put, by its number from 1 among those of its die.
pub fn sign_off_line(number: u64) -> ShortText
    ensures { result ≡ body.sign_off_line number }
{
    number_body(b"signoff", number)
}

/// A sign-off that is read: its number, the revision, who signed, by a tag, and the digest of the report.
pub fn sign_off_body(number: u64, revision: u64, signer: &[u8], digest: &Digest) -> ShortText
    requires { length signer.now ≤ 64 }
    ensures { result ≡ body.sign_off_body number revision signer.now digest.now }
{
    let mut text = ShortText::new();
    text.add_number_line(b"signoff", number);
    text.add_number_line(b"revision", revision);
    text.add_name_line(b"signer", signer);
    text.add_digest_line(b"digest", digest);
    text
}

/// The lines before the summary of a design that is read: its name, a tag, and the digest of its bundle.
pub fn design_head(name: &[u8], digest: &Digest) -> ShortText
    requires { length name.now ≤ 64 }
    ensures { result ≡ body.design_head name.now digest.now }
{
    let mut text = ShortText::new();
    text.add_name_line(b"design", name);
    text.add_digest_line(b"digest", digest);
    text
}

/// Rule 41: the design has so many faults, and none of the number.
pub fn unknown_fault_body(faults: u64) -> ShortText
    ensures { result ≡ body.unknown_fault_body faults }
{
    number_body(b"rule 41 faults", faults)
}

/// Rule 71: the report has so many lines, and none of the number.
pub fn unknown_line_body(lines: u64) -> ShortText
    ensures { result ≡ body.unknown_line_body lines }
{
    number_body(b"rule 71 lines", lines)
}

/// Rule 72: single faults explain so many patterns, and the one of the number isn't among them.
pub fn unknown_pattern_body(patterns: u64) -> ShortText
    ensures { result ≡ body.unknown_pattern_body patterns }
{
    number_body(b"rule 72 patterns", patterns)
}

/// Rule 82: the name has another text, with this digest.
pub fn name_taken_body(kept: &Digest) -> ShortText
    ensures { result ≡ body.name_taken_body kept.now }
{
    digest_body(b"rule 82 kept", kept)
}

/// Rule 85: the die has so many revisions, and none of the number.
pub fn unknown_revision_body(have: u64) -> ShortText
    ensures { result ≡ body.unknown_revision_body have }
{
    number_body(b"rule 85 have", have)
}

/// Rule 86: the report has another digest, which is this one.
pub fn digest_differs_body(right: &Digest) -> ShortText
    ensures { result ≡ body.digest_differs_body right.now }
{
    digest_body(b"rule 86 digest", right)
}

/// Rule 87: the die has so many sign-offs, and none of the number.
pub fn unknown_sign_body(have: u64) -> ShortText
    ensures { result ≡ body.unknown_sign_body have }
{
    number_body(b"rule 87 have", have)
}

/// Rule 88: the book has as many deeds as it may have, which is this many.
pub fn full_body(limit: u64) -> ShortText
    ensures { result ≡ body.full_body limit }
{
    number_body(b"rule 88 limit", limit)
}

/// The first fault of a text.
pub fn text_fault_body(kind: TextKind, fault: TextFault) -> ShortText
    ensures { result ≡ body.text_fault_body kind fault }
{
    let TextFault { line, rule } = fault;
    let mut text = ShortText::new();
    text.add(b"section ");
    text.add(kind.word().as_bytes());
    text.add(b" line ");
    text.add_number(line);
    text.add_number_line(b" rule", u64::from(rule));
    text
}

/// What is put, by the body of the reply: that of a design is known, those of a log and a sign-off tell its number.
#[derive(Drop)]
pub enum Entry {
    Design(ShortText),
    Log,
    SignOff,
}

impl Entry {
    // The body where it has this number.
    pub(crate) fn body(self, number: u64) -> ShortText
        ensures { result ≡ body.entry_body self number }
    {
        match self {
            Entry::Design(text) => text,
            Entry::Log => log_body(number),
            Entry::SignOff => sign_off_line(number),
        }
    }
}
