//! What becomes of the session of one image.
ghost use Rattle.std.specs.Prelude.{◌≡◌, true};
ghost use Rattle.plx_gate.specs.Images.{is_image};
ghost use Rattle.plx_session.specs.Shown.{known_session};
ghost use Rattle.plx_session.specs.Pushing.{new_session_if, with_one_more};
ghost use Rattle.plx_session.specs.Tied.{slots_with_session};

use crate::session::Session;
use plx_base::Block;
use plx_gate::ImageRecord;

/// A session has one more write, if there is one whose journal has a slot for it.
pub fn push(image: &mut Option<Session>, slots: u32, number: u64, vblock: u32, bytes: &Block)
    requires { slots_with_session slots image.old ≡ slots }
    ensures known { known_session image.new ≡ with_one_more slots (known_session image.old)
        (record { number = number; vblock = vblock; block = bytes.now }) }
    ensures same { slots_with_session slots image.new ≡ slots }
{
    match image {
        Some(session) => {
            if session.journal.len() < slots as usize {
                session.push(number, vblock, bytes);
            }
        }
        None => {}
    }
}

/// A session, if there is one, is that of an image that was just made or deleted.
pub fn start(image: &mut Option<Session>, slots: u32, made: ImageRecord)
    requires same { slots_with_session slots image.old ≡ slots }
    requires limits { is_image made ≡ true }
    ensures known { known_session image.new ≡ new_session_if (known_session image.old) made }
    ensures same { slots_with_session slots image.new ≡ slots }
{
    match image {
        Some(session) => session.start(made),
        None => {}
    }
}
