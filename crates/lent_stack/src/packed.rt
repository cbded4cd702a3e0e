ghost use Rattle.std.specs.Prelude.{◌≡◌, ℕ};

// A value that lies in one word.
// No From: u64 and `Option<Kind>` are other crates' types, and a law ties the two ways.
pub trait Packed {
    // What each word stands for.
    ghost unpacked: { ℕ → Self };

    fn pack(self) -> u64
        ensures { unpacked result ≡ self };

    fn unpack(word: u64) -> Self
        ensures { result ≡ unpacked word };
}
