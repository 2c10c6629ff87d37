//! The rule that allows every step, for tests.

use crate::Rule;
use atomic_table::{Join, Split, TableRule};

/// A rule that allows every step, split and join. A seat knows nothing.
pub struct Free;

impl TableRule<(), (), ()> for Free {
    ghost holds = { λ _ _. Unit {0} };

    ghost first = { λ _. tt };
}

impl Rule for Free {
    type View = ();

    type Key = ();
}

impl Split<()> for Free {
    ghost left = { λ v. v };

    ghost right = { λ v. v };
}

impl Join<()> for Free {
    ghost both = { λ v _. v };

    ghost spent = { tt };
}
