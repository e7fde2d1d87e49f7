ghost use Rattle.std.specs.Prelude.{◌≡◌, ℕ, List};

/// What has a name.
pub trait Named: Drop {
    ghost name: { Self → List ℕ };

    /// The name. Takes constant time.
    fn name(&self) -> &[u8]
        ensures { result.now ≡ name self.now };
}
