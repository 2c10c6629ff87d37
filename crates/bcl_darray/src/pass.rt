//! One rank's part in a phase of an array.

use crate::array::Array;
use bcl_phase::{Phased, Promise, Rested, Wraps};
use bcl_words::Object;

/// One rank's part in a phase of an array under the promise P. It may go to another thread.
#[derive(Drop)]
pub struct ArrayPass<P: Promise, T>
where
    Array<T>: Phased,
{
    pub pass: Rested<Array<T>, P>,
}

impl<P: Promise, T> Wraps for ArrayPass<P, T>
where
    Array<T>: Phased,
{
    type Inner = Rested<Array<T>, P>;

    ghost inner = { λ pass. pass.pass };

    fn wrap(it: Rested<Array<T>, P>) -> Self {
        ArrayPass { pass: it }
    }

    fn into_inner(self) -> Rested<Array<T>, P> {
        self.pass
    }
}

impl<P: Promise, T: Object> ArrayPass<P, T> {
    ghost use Rattle.std.specs.Prelude.{◌≡◌};
    ghost use Rattle.bcl_darray.specs.Parts as array;

    /// The number of this rank, from 0.
    pub fn rank(&self) -> u32
        ensures rank { result ≡ (array.pass_view self.now).rank }
    {
        self.pass.pass.rank()
    }
}
