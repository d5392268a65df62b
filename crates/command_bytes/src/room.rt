// What bytes are appended to.
ghost use Rattle.std.specs.Prelude.{◌≡◌, ◌≤◌, ◌+◌, ◌-◌, ◌++◌, ℕ, List, length, vec_capacity, vec_len};
ghost use Rattle.identity.specs.Packed.{AreBytes};

use std::alloc::Allocator;

/// What bytes are appended to, where it has room for them. No call allocates.
pub trait ByteSink {
    /// The bytes that it holds.
    ghost held: { Self → List ℕ };

    /// How many more bytes it has room for.
    ghost room: { Self → ℕ };

    /// Appends bytes.
    fn put(&mut self, bytes: &[u8])
        requires { length bytes.now ≤ room self.old }
        ensures held { held self.new ≡ held self.old ++ bytes.now }
        ensures room { room self.old ≤ room self.new + length bytes.now }
        ensures are { AreBytes bytes.now };
}

impl<A: Allocator> ByteSink for Vec<u8, A> {
    ghost held = { λ v. v.items };

    ghost room = { λ v. vec_capacity v - vec_len v };

    fn put(&mut self, bytes: &[u8]) {
        self.extend_from_slice(bytes).unwrap();
    }
}
