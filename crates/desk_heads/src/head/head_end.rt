//! Where the head of a request ends.
ghost use Rattle.std.specs.Prelude.{◌≡◌, ◌≤◌, length, IfSome};
ghost use Rattle.desk_heads.specs.Heads.{blank_length, head_length, HasNoEndWithin};

// The length of the empty line, LF or CR LF, at the front.
fn blank_length(bytes: &[u8]) -> Option<usize>
    ensures length { result ≡ blank_length bytes.now }
    ensures within { IfSome result (λ n. n ≤ length bytes.now) }
{
    match bytes {
        [b'\n', ..] => Some(1),
        [b'\r', b'\n', ..] => Some(2),
        _ => None,
    }
}

// The length of the head at the front (RFC 9112, section 2.1): up to and with its first empty line, which directly follows an LF.
#[tactic(auto, using(crate::proofs::HeadEnd::found_at, crate::proofs::HeadEnd::steps_over, crate::proofs::HeadEnd::steps_over_lf, crate::proofs::HeadEnd::none_at_end))]
fn head_length(bytes: &[u8]) -> Option<usize>
    ensures length { result ≡ head_length bytes.now }
    ensures within { IfSome result (λ n. n ≤ length bytes.now) }
{
    for (place, byte) in bytes.iter().enumerate() {
        let next = place + 1;
        if *byte == b'\n' {
            if let Some(blank) = blank_length(&bytes[next..]) {
                return Some(next + blank);
            }
        }
    }
    None
}

/// The length of the head at the front, where no head ends in the first `sought` bytes: these aren't looked at again, but for the
/// last two.
pub(crate) fn head_length_past(bytes: &[u8], sought: usize) -> Option<usize>
    requires { HasNoEndWithin sought bytes.now }
    ensures length { result ≡ head_length bytes.now }
    ensures within { IfSome result (λ n. n ≤ length bytes.now) }
{
    // Behind an LF in these two, the empty line may have come only in part.
    let start = sought.saturating_sub(2);
    let length = head_length(&bytes[start..])?;
    Some(start + length)
}
