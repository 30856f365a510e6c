//! What reclamation has marked.
ghost use Rattle.std.specs.Prelude.{◌≡◌};

/// The blocks of one extent that are marked, by the bits of its map.
pub trait MarkSet {
    ghost use Rattle.std.specs.Prelude.{ℕ, Bool};

    ghost is_marked: { Self → ℕ → Bool };

    /// Whether the block of a bit is marked, bits counted from 0.
    fn has(&self, bit: u32) -> bool
        ensures { result ≡ is_marked self.now bit };
}
