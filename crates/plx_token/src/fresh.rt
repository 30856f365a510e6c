//! Fresh blocks.
ghost use Rattle.std.specs.Prelude.{◌≡◌};

use crate::held::Held;
use crate::kind::Extent;
use plx_base::{BlockNo, ExtentNo};

/// A fresh block: it was taken under a lease of its extent, and isn't linked yet. It can't be
/// copied, and has to be spent.
pub struct Fresh {
    block: BlockNo,
    extent: ExtentNo,
}

impl Fresh {
    /// The block was taken under the lease of its extent.
    pub fn taken(block: BlockNo, extent: &Held<Extent>) -> Fresh
        ensures block { result.block ≡ block }
        ensures extent { result.extent ≡ extent.now.lease.0 }
    {
        Fresh {
            block,
            extent: extent.lease().0,
        }
    }

    /// The block.
    pub fn block(&self) -> BlockNo
        ensures { result ≡ self.now.block }
    {
        self.block
    }

    /// The extent in which the block lies.
    pub fn extent(&self) -> ExtentNo
        ensures { result ≡ self.now.extent }
    {
        self.extent
    }

    /// The block is linked: a pointer leads to it.
    pub fn linked(self) {
        self.spent();
    }

    /// The block is given back.
    pub fn given_back(self) {
        self.spent();
    }

    /// The block is given up: its lease is lost.
    pub fn abandoned(self) {
        self.spent();
    }

    // The token is used up.
    fn spent(self) {
        let Fresh {
            block: _,
            extent: _,
        } = self;
    }
}
