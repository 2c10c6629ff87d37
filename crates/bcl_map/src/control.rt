//! The control words of a map's buckets.

ghost use Rattle.std.specs.Prelude.{◌≡◌, ◌↔◌, ◌<◌, true};
ghost use Rattle.bcl_bucket.specs.Controls.{word_of};
ghost use Rattle.bcl_bucket.specs.declared.control.State.TheVariants.{Ready};
ghost use Rattle.bcl_map.specs.Map.{tag};

use bcl_bucket::{Control, State};

// Whether a control word names this home.
#[inline(always)]
pub(crate) fn names_home(control: u64, home: u32) -> bool
    ensures names { (result ≡ true) ↔ (tag control ≡ home) }
{
    control / 256 % 256 == u64::from(home)
}

// The control word of a bucket with a key of this home and a value, and no readers.
#[inline(always)]
pub(crate) fn ready(home: u32) -> u64
    requires few { home < 256 }
    ensures word { result ≡ word_of (record { state = Ready; home = home; readers = 0 }) }
{
    let control = Control {
        state: State::Ready,
        home: home as u8,
        readers: 0,
    };
    control.to_word()
}
