//! A connection that may be read byte by byte.
ghost use Rattle.std.specs.Prelude.{◌≡◌, ◌≤◌};

use desk_outside::{Failed, Link, LinkRead};

// A connection, and whether each read brings one byte at most.
#[derive(Drop)]
pub(super) struct PieceLink<L: Link> {
    link: L,
    by_bytes: bool,
}

impl<L: Link> PieceLink<L> {
    // This connection, read byte by byte or not.
    pub(super) fn over(link: L, by_bytes: bool) -> PieceLink<L>
        ensures { result.link ≡ link }
    {
        PieceLink { link, by_bytes }
    }

    // The connection.
    pub(super) fn link(&self) -> &L
        ensures { result.now ≡ self.now.link }
    {
        &self.link
    }
}

impl<L: Link> Link for PieceLink<L> {
    ghost left = { λ b. L.left b.link };

    ghost sent = { λ b. L.sent b.link };

    ghost faults = { λ b. L.faults b.link };

    fn read(&mut self, into: &mut [u8]) -> LinkRead {
        let most = if self.by_bytes { 1 } else { into.len() };
        let room = into.len().min(most);
        self.link.read(&mut into[..room])
    }

    fn write(&mut self, bytes: &[u8]) -> Result<usize, Failed> {
        self.link.write(bytes)
    }
}
