//! The leases that a boot holds.
ghost use Rattle.std.specs.Prelude.{◌≡◌, ◌<◌, IfOk, None, Some, length, option_copied, slice_set, replicate};
ghost use Rattle.plx_lease.specs.Slots.{AreInPlace};

use plx_base::{NoMemory, SlotNo};
use plx_token::{Held, Image, Root};
use std::alloc::Global;

/// The leases of the root and of images that one boot holds.
#[derive(Drop)]
pub struct Tokens {
    root: Option<Held<Root>>,
    images: Vec<Option<Held<Image>>>,
    ghost own: { AreInPlace images.items },
}

impl Tokens {
    ghost use Rattle.plx_lease.specs.Tables.{root_token, image_token, images_of};

    /// No lease is held; there are so many image slots.
    pub fn new(alloc: Global, images: u32) -> Result<Tokens, NoMemory>
        ensures root { IfOk result (λ tokens. root_token tokens ≡ None) }
        ensures images { IfOk result (λ tokens. images_of tokens ≡ replicate images None) }
    {
        let mut slots = Vec::new(alloc);
        for _ in 0..images {
            slots.push(None)?;
        }
        Ok(Tokens {
            root: None,
            images: slots,
        })
    }

    /// The root's lease, where it is held.
    pub fn root(&self) -> Option<&Held<Root>>
        ensures { option_copied result ≡ root_token self.now }
    {
        self.root.as_ref()
    }

    /// The root's lease is taken out, where it is held.
    pub fn take_root(&mut self) -> Option<Held<Root>>
        ensures taken { result ≡ root_token self.old }
        ensures root { root_token self.new ≡ None }
        ensures images { images_of self.new ≡ images_of self.old }
    {
        self.root.take()
    }

    /// The root's lease is held.
    pub fn put_root(&mut self, held: Held<Root>)
        requires { root_token self.old ≡ None }
        ensures root { root_token self.new ≡ Some held }
        ensures images { images_of self.new ≡ images_of self.old }
    {
        self.root = Some(held);
    }

    /// An image's lease, where it is held.
    pub fn image(&self, slot: SlotNo) -> Option<&Held<Image>>
        ensures { option_copied result ≡ image_token self.now slot.0 }
    {
        self.images.get(slot.0 as usize)?.as_ref()
    }

    /// An image's lease is taken out, where it is held.
    pub fn take_image(&mut self, slot: SlotNo) -> Option<Held<Image>>
        ensures taken { result ≡ image_token self.old slot.0 }
        ensures images { images_of self.new ≡ slice_set (images_of self.old) slot.0 None }
        ensures root { root_token self.new ≡ root_token self.old }
    {
        match self.images.get_mut(slot.0 as usize) {
            Some(held) => held.take(),
            None => None,
        }
    }

    /// An image's lease is held.
    pub fn put_image(&mut self, held: Held<Image>)
        requires slot { held.lease.0.0 < length (images_of self.old) }
        requires free { image_token self.old held.lease.0.0 ≡ None }
        ensures images { images_of self.new ≡ slice_set (images_of self.old) held.lease.0.0
            (Some held) }
        ensures root { root_token self.new ≡ root_token self.old }
    {
        let slot = held.lease().0.0 as usize;
        self.images[slot] = Some(held);
    }

    /// No lease is held any more.
    pub fn drop_all(&mut self)
        ensures root { root_token self.new ≡ None }
        ensures images { images_of self.new ≡ replicate (length (images_of self.old)) None }
    {
        self.root = None;
        for image in self.images.iter_mut() {
            *image = None;
        }
    }
}
