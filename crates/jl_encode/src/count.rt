//! How many items a frame has.
ghost use Rattle.std.specs.Prelude.{◌≡◌, ◌<◌, ◌+◌, ◌==◌, ◌||◌, if◌then◌else◌};

/// How many items the frame under way has, and how many a frame may have.
#[derive(Debug, Drop)]
pub(crate) struct Count {
    pub per: u32,
    pub items: u32,
    ghost within: { items < per },
}

impl Count {
    pub fn new(per: u32) -> Count
        requires { 0 < per }
        ensures per { result.per ≡ per }
        ensures items { result.items ≡ 0 }
    {
        Count { per, items: 0 }
    }

    /// Counts one item more, and tells whether the frame is ended: it has so many items, or it is long. The next frame has
    /// none.
    pub fn ends(&mut self, is_long: bool) -> bool
        ensures ends { result ≡ ((self.old.items + 1 == self.old.per) || is_long) }
        ensures items { self.new.items ≡ (if result then 0 else self.old.items + 1) }
        ensures per { self.new.per ≡ self.old.per }
    {
        let items = self.items + 1;
        let ends = items == self.per || is_long;
        self.items = if ends { 0 } else { items };
        ends
    }
}
