//! Which calls may run side by side.

ghost use Rattle.std.specs.Prelude.{ℕ};

/// A concurrency promise: what the ranks declare of a phase, so that each call can take the cheapest protocol that is
/// still right (Brock, Buluç, Yelick, ICPP 2019).
///
/// Which calls a promise permits to which rank stands in the tables of `bcl_event`, container by container.
pub trait Promise: sealed::Sealed {
    /// Its number among the nine, from 1 on, by which a view names it.
    const CODE: u64;

    ghost CODE: { ℕ };
}

/// Finds alone.
pub struct Find;

/// Any call, on what is the rank's own.
pub struct Own;

/// Additions to numbers alone.
pub struct Add;

/// Finds and inserts, on any key.
pub struct FindInsert;

/// Pushes alone.
pub struct Push;

/// Pops alone.
pub struct Pop;

/// Pushes and pops.
pub struct PushPop;

/// Reads alone.
pub struct Read;

/// Any call, each of one atomic step.
pub struct Any;

impl Promise for Find {
    const CODE: u64 = 1;

    ghost CODE = { 1 };
}

impl Promise for Own {
    const CODE: u64 = 2;

    ghost CODE = { 2 };
}

impl Promise for Add {
    const CODE: u64 = 3;

    ghost CODE = { 3 };
}

impl Promise for FindInsert {
    const CODE: u64 = 4;

    ghost CODE = { 4 };
}

impl Promise for Push {
    const CODE: u64 = 5;

    ghost CODE = { 5 };
}

impl Promise for Pop {
    const CODE: u64 = 6;

    ghost CODE = { 6 };
}

impl Promise for PushPop {
    const CODE: u64 = 7;

    ghost CODE = { 7 };
}

impl Promise for Read {
    const CODE: u64 = 8;

    ghost CODE = { 8 };
}

impl Promise for Any {
    const CODE: u64 = 9;

    ghost CODE = { 9 };
}

// Only the nine are promises.
mod sealed {
    pub trait Sealed {}

    impl Sealed for super::Find {}

    impl Sealed for super::Own {}

    impl Sealed for super::Add {}

    impl Sealed for super::FindInsert {}

    impl Sealed for super::Push {}

    impl Sealed for super::Pop {}

    impl Sealed for super::PushPop {}

    impl Sealed for super::Read {}

    impl Sealed for super::Any {}
}
