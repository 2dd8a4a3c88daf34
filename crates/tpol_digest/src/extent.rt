ghost use Rattle.std.specs.Prelude.{◌≡◌, ◌+◌, ◌*◌, min, max};
ghost use Rattle.tpol_digest.specs.Extent.{where_paths};

/// How many paths there are, and how many moves the longest has, each counted no further than one past
/// its limit. Where there is no path, there are 0 moves; where there are too many, the moves may be of some only.
#[derive(Clone, Copy)]
pub struct Extent {
    pub paths: u64,
    pub moves: u64,
}

/// The greatest number of paths that are walked.
pub const MAX_PATHS: u64 = 65_536;

/// The greatest number of moves of a path that is walked.
pub const MAX_MOVES: u64 = 512;

impl Extent {
    // The extent of no path.
    pub fn no_path() -> Extent
        ensures paths { result.paths ≡ 0 }
        ensures moves { result.moves ≡ 0 }
    {
        Extent { paths: 0, moves: 0 }
    }

    // The extent of one path of so many moves.
    pub fn one_path(moves: u64) -> Extent
        ensures paths { result.paths ≡ 1 }
        ensures moves { result.moves ≡ moves }
    {
        Extent { paths: 1, moves }
    }

    // The extent of the paths of two parts one after the other.
    pub fn then(self, rest: Extent) -> Extent
        ensures paths { result.paths ≡ min (self.paths * rest.paths) 65537 }
        ensures moves { result.moves
            ≡ where_paths (self.paths * rest.paths) (min (self.moves + rest.moves) 513) }
    {
        if self.paths == 0 || rest.paths == 0 {
            return Extent::no_path();
        }
        Extent {
            paths: self.paths.saturating_mul(rest.paths).min(MAX_PATHS + 1),
            moves: self.moves.saturating_add(rest.moves).min(MAX_MOVES + 1),
        }
    }

    // The extent of the paths of either part.
    pub fn or(self, other: Extent) -> Extent
        ensures paths { result.paths ≡ min (self.paths + other.paths) 65537 }
        ensures moves { result.moves ≡ max self.moves other.moves }
    {
        Extent {
            paths: self.paths.saturating_add(other.paths).min(MAX_PATHS + 1),
            moves: self.moves.max(other.moves),
        }
    }

    // The extent of the same paths with one more move each.
    pub fn with_move(self) -> Extent
        ensures paths { result.paths ≡ self.paths }
        ensures moves { result.moves ≡ where_paths self.paths (min (self.moves + 1) 513) }
    {
        if self.paths == 0 {
            return Extent::no_path();
        }
        Extent {
            paths: self.paths,
            moves: self.moves.saturating_add(1).min(MAX_MOVES + 1),
        }
    }
}
