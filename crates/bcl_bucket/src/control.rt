//! The control word of a bucket.

ghost use Rattle.std.specs.Prelude.{◌≡◌, ◌↔◌, false, true, Some, IsNone, IfSome};
ghost use Rattle.bcl_bucket.specs.Controls.{is_control, word_of, control_of};

/// What is done with a bucket.
#[derive(Clone, Copy, Debug, PartialEq, Eq)]
pub enum State {
    /// It has no key.
    Free,
    /// A rank puts its key and value, and no other reads them.
    Reserved,
    /// It has a key and a value.
    Ready,
    /// It has a key, and a rank puts its value, which no other reads.
    Held,
}

/// What the control word of a bucket says.
#[derive(Clone, Copy, Debug, PartialEq, Eq)]
pub struct Control {
    pub state: State,
    /// The home rank of the key.
    pub home: u8,
    /// How many ranks read the value.
    pub readers: u16,
}

impl Control {
    /// What a word says. `None` exactly where it is no control word.
    pub fn of_word(w: u64) -> Option<Control>
        ensures none { IsNone result ↔ (is_control w ≡ false) }
        ensures some { IfSome result (λ c. (c ≡ control_of w) × (word_of c ≡ w)) }
    {
        if w >= 1 << 32 {
            return None;
        }
        let state = match w % 256 {
            0 => State::Free,
            1 => State::Reserved,
            2 => State::Ready,
            3 => State::Held,
            _ => return None,
        };
        Some(Control {
            state,
            home: (w / 256 % 256) as u8,
            readers: (w / 65536) as u16,
        })
    }

    /// The word that says this.
    pub fn to_word(&self) -> u64
        ensures word { result ≡ word_of self.now }
        ensures control { is_control result ≡ true }
        ensures undone { control_of result ≡ self.now }
    {
        let state = match self.state {
            State::Free => 0,
            State::Reserved => 1,
            State::Ready => 2,
            State::Held => 3,
        };
        state + u64::from(self.home) * 256 + u64::from(self.readers) * 65536
    }
}
