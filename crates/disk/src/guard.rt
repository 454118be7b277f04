// A guard for a lent area.
ghost use Rattle.std.specs.Prelude.{◌≡◌, length, replicate};

// Holds a lent area while its bytes are looked at; when the guard ends, on whichever way, the area is all zero.
pub struct AreaGuard<'a> {
    area: &'a mut [u8],
}

impl<'a> AreaGuard<'a> {
    pub fn new(area: &'a mut [u8]) -> AreaGuard<'a>
        ensures holds { result.area.now ≡ area.old }
        ensures lent { result.area.ghost_name ≡ area.entry.ghost_name }
    {
        AreaGuard { area }
    }

    pub fn bytes(&self) -> &[u8]
        ensures { result.now ≡ self.now.area.now }
    {
        self.area
    }
}

impl Drop for AreaGuard<'_> {
    fn drop(self)
        ensures { self.exit.0.now ≡ replicate (length self.entry.area.now) 0 }
    {
        let AreaGuard { area: held } = self;
        held.fill(0);
    }
}
