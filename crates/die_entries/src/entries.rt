//! Entries of a die that come again: each is known by the first that is like it.
ghost use Rattle.std.specs.Prelude.{◌≡◌, ◌<◌, ◌^◌, IfSome};
ghost use Rattle.std.specs.Str.{bytes_eq};
ghost use Rattle.diagnosis.specs.Designs.{texts_of};
ghost use Rattle.die_entries.specs.Entries.{arc_values, is_signed_by, put_numbered, put_where};

use crate::sign::Sign;
use diagnosis::{Put, ReadLog};
use std::sync::Arc;

// The entry at a place, or the next one.
fn put_at(place: Option<usize>, count: usize) -> Put
    requires room { count < 2 ^ 63 }
    requires within { IfSome place (λ i. i < count) }
    ensures { result ≡ put_numbered place count }
{
    match place {
        Some(i) => Put::Same {
            number: i as u64 + 1,
        },
        None => Put::Created {
            number: count as u64 + 1,
        },
    }
}

/// The log of that text among those of its die, or the next one.
pub fn put_text(logs: &[Arc<ReadLog>], text: &[u8]) -> Put
    ensures { result ≡ put_where (bytes_eq text.now) (texts_of (arc_values logs.now)) }
{
    let place = logs.iter().position(|log| text == log.text());
    put_at(place, logs.len())
}

/// The sign-off of that revision by that signer among those of its die, or the next one.
pub fn put_sign(signs: &[Sign], revision: u64, signer: &[u8]) -> Put
    ensures { result ≡ put_where (is_signed_by revision signer.now) signs.now }
{
    let place = signs.iter().position(|sign| sign.revision == revision
        && sign.signer.as_slice() == signer);
    put_at(place, signs.len())
}
