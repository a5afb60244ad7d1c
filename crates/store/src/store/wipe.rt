ghost use Rattle.std.specs.Prelude.{◌≡◌, length, replicate};

// A working slice in use. It is zero when the use ends, on every way out.
pub struct Wipe<'a> {
    pub bytes: &'a mut [u8],
}

impl Drop for Wipe<'_> {
    fn drop(self)
        ensures { self.exit.0.now ≡ replicate (length self.entry.bytes.now) 0 }
    {
        self.bytes.fill(0);
        let Wipe { bytes: _ } = self;
    }
}
