// Records that tell the number of a frame.
ghost use Rattle.std.specs.Prelude.{◌≡◌, ℕ};

// A record that belongs to a frame.
pub trait Framed: Copy {
    // The number of the frame.
    ghost frame: { Self → ℕ };

    fn frame(&self) -> usize
        ensures { result ≡ frame self.now };
}
