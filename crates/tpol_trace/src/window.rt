// The places of a table between which all lies that is there.

ghost use Rattle.std.specs.Prelude.{◌≡◌, ◌-◌, ◌≤◌, length, max, slice_index_or, ℕ, Some, None};
ghost use Rattle.tpol_trace.specs.Windows.{IsIn};

// The places from one on and before another.
#[derive(Clone, Copy)]
pub struct Window {
    pub from: usize,
    pub to: usize,
}

impl Window {
    // No place.
    pub const NONE: Window = Window { from: 0, to: 0 };

    // The places that are one lower.
    pub fn lower(self) -> Window
        ensures from { result.from ≡ self.from - 1 }
        ensures to { result.to ≡ self.to - 1 }
    {
        Window {
            from: self.from.saturating_sub(1),
            to: self.to.saturating_sub(1),
        }
    }

    // The places of both, and those between.
    pub fn around(self, other: Window) -> Window
        ensures first { (k : ℕ) → IsIn self k → IsIn result k }
        ensures second { (k : ℕ) → IsIn other k → IsIn result k }
        ensures end { result.to ≤ max self.to other.to }
    {
        if self.from >= self.to {
            other
        } else if other.from >= other.to {
            self
        } else {
            Window {
                from: self.from.min(other.from),
                to: self.to.max(other.to),
            }
        }
    }

    // The places without those at both ends where nothing is.
    pub fn trimmed(self, entries: &[Option<u32>]) -> Window
        requires { self.to ≤ length entries.now }
        ensures entries { (k entry : ℕ) → slice_index_or entries.now k None ≡ Some entry
            → IsIn self k → IsIn result k }
        ensures end { result.to ≤ self.to }
    {
        let mut found = Window::NONE;
        for k in self.from..self.to {
            if entries[k].is_some() {
                found = found.around(Window { from: k, to: k + 1 });
            }
        }
        found
    }
}
