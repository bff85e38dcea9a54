//! A sign-off.
use scan_model::{Digest, Name};

/// A sign-off of a die: the revision, which is the number of logs that its report covers, who signed, and the SHA-256
/// digest of the report's bytes.
#[derive(Drop)]
pub struct Sign {
    pub revision: u64,
    pub signer: Name,
    pub digest: Digest,
}
