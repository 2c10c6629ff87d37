//! A type of a container's own over a pass.

ghost use Rattle.std.specs.Prelude.{◌≡◌};

/// A type that is another with a name, and methods, of its own.
///
/// A container's pass is one over [`Rested`](crate::Rested): a phase hands out passes of that type and takes them back, each
/// without memory.
pub trait Wraps: Drop {
    type Inner;

    // what it holds
    ghost inner: { Self → Self.Inner };

    fn wrap(it: Self::Inner) -> Self
        ensures inner { inner result ≡ it };

    fn into_inner(self) -> Self::Inner
        ensures inner { result ≡ inner self };
}
