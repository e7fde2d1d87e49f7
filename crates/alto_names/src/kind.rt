ghost use Rattle.std.specs.Prelude.{◌≡◌, ◌<◌, ◌≤◌, ℕ, Bool, true, refl};
ghost use Rattle.std.proofs.Common.{rules, arith};
ghost use Rattle.std.proofs.lemmas.Bool.Decides.{nat_tests};
ghost use Rattle.alto_names.specs.Name.{is_letter_or_digit, is_net_byte, is_pid_byte, is_metric_byte, is_import_byte};

/// A kind of name: its alphabet and its greatest length. Each is a type of its own, made for its parameters alone.
pub trait Kind {
    ghost alphabet: { ℕ → Bool };

    ghost LONGEST: { ℕ };

    ghost LEAST: { ℕ };

    /// The greatest length in bytes.
    const LONGEST: usize;

    /// The least byte of the alphabet.
    const LEAST: u8;

    /// Whether the byte is in the kind's alphabet.
    fn admits(byte: u8) -> bool
        ensures { result ≡ alphabet byte };

    ghost has_room: { 0 < LONGEST };

    ghost has_bound: { LONGEST ≤ 64 };

    ghost has_least: { alphabet LEAST ≡ true };

    ghost none_below: { (byte : ℕ) → alphabet byte ≡ true → LEAST ≤ byte };

    ghost ascii: { (byte : ℕ) → alphabet byte ≡ true → byte < 128 };
}

/// Names of networks.
pub struct NetKind;

impl Kind for NetKind {
    ghost alphabet = { is_net_byte };

    ghost LONGEST = { 24 };

    ghost LEAST = { 45 };

    const LONGEST: usize = 24;

    const LEAST: u8 = b'-';

    ghost has_room = { Prim.search rules };

    ghost has_bound = { Prim.search rules };

    ghost has_least = { refl };

    ghost none_below = { λ byte h. Prim.grind (arith, nat_tests) };

    ghost ascii = { λ byte h. Prim.grind (arith, nat_tests) };

    fn admits(byte: u8) -> bool {
        byte.is_ascii_alphanumeric() || byte == b'-' || byte == b'_'
    }
}

/// Names of PIDs.
pub struct PidKind;

impl Kind for PidKind {
    ghost alphabet = { is_pid_byte };

    ghost LONGEST = { 64 };

    ghost LEAST = { 45 };

    const LONGEST: usize = 64;

    const LEAST: u8 = b'-';

    ghost has_room = { Prim.search rules };

    ghost has_bound = { Prim.search rules };

    ghost has_least = { refl };

    ghost none_below = { λ byte h. Prim.grind (arith, nat_tests) };

    ghost ascii = { λ byte h. Prim.grind (arith, nat_tests) };

    fn admits(byte: u8) -> bool {
        matches!(
            byte,
            b'0'..=b'9' | b'A'..=b'Z' | b'a'..=b'z' | b'-' | b':' | b'@' | b'_'
        )
    }
}

/// Names of cost metrics.
pub struct MetricKind;

impl Kind for MetricKind {
    ghost alphabet = { is_metric_byte };

    ghost LONGEST = { 32 };

    ghost LEAST = { 45 };

    const LONGEST: usize = 32;

    const LEAST: u8 = b'-';

    ghost has_room = { Prim.search rules };

    ghost has_bound = { Prim.search rules };

    ghost has_least = { refl };

    ghost none_below = { λ byte h. Prim.grind (arith, nat_tests) };

    ghost ascii = { λ byte h. Prim.grind (arith, nat_tests) };

    fn admits(byte: u8) -> bool {
        byte.is_ascii_alphanumeric() || byte == b'-' || byte == b':' || byte == b'_'
    }
}

/// Names of properties.
pub struct PropKind;

impl Kind for PropKind {
    ghost alphabet = { is_metric_byte };

    ghost LONGEST = { 32 };

    ghost LEAST = { 45 };

    const LONGEST: usize = 32;

    const LEAST: u8 = b'-';

    ghost has_room = { Prim.search rules };

    ghost has_bound = { Prim.search rules };

    ghost has_least = { refl };

    ghost none_below = { λ byte h. Prim.grind (arith, nat_tests) };

    ghost ascii = { λ byte h. Prim.grind (arith, nat_tests) };

    fn admits(byte: u8) -> bool {
        MetricKind::admits(byte)
    }
}

/// Names of abstract network elements.
pub struct AneKind;

impl Kind for AneKind {
    ghost alphabet = { is_pid_byte };

    ghost LONGEST = { 32 };

    ghost LEAST = { 45 };

    const LONGEST: usize = 32;

    const LEAST: u8 = b'-';

    ghost has_room = { Prim.search rules };

    ghost has_bound = { Prim.search rules };

    ghost has_least = { refl };

    ghost none_below = { λ byte h. Prim.grind (arith, nat_tests) };

    ghost ascii = { λ byte h. Prim.grind (arith, nat_tests) };

    fn admits(byte: u8) -> bool {
        PidKind::admits(byte)
    }
}

/// Ids of imports.
pub struct ImportKind;

impl Kind for ImportKind {
    ghost alphabet = { is_import_byte };

    ghost LONGEST = { 64 };

    ghost LEAST = { 33 };

    const LONGEST: usize = 64;

    const LEAST: u8 = b'!';

    ghost has_room = { Prim.search rules };

    ghost has_bound = { Prim.search rules };

    ghost has_least = { refl };

    ghost none_below = { λ byte h. Prim.grind (arith, nat_tests) };

    ghost ascii = { λ byte h. Prim.grind (arith, nat_tests) };

    fn admits(byte: u8) -> bool {
        byte.is_ascii_graphic()
    }
}

/// Epochs.
pub struct EpochKind;

impl Kind for EpochKind {
    ghost alphabet = { is_letter_or_digit };

    ghost LONGEST = { 20 };

    ghost LEAST = { 48 };

    const LONGEST: usize = 20;

    const LEAST: u8 = b'0';

    ghost has_room = { Prim.search rules };

    ghost has_bound = { Prim.search rules };

    ghost has_least = { refl };

    ghost none_below = { λ byte h. Prim.grind (arith, nat_tests) };

    ghost ascii = { λ byte h. Prim.grind (arith, nat_tests) };

    fn admits(byte: u8) -> bool {
        byte.is_ascii_alphanumeric()
    }
}
