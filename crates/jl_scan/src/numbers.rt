// The numbers of blocks and of their cells.
ghost use Rattle.std.specs.Prelude.{◌≡◌, ℕ, ◌+◌, ◌*◌, ◌-◌, ◌≤◌, ◌<◌, ◌^◌};
ghost use Rattle.jl_scan.specs.Blocks.{before_level, blocks, edge};
ghost use Rattle.jl_scan.specs.Walk.{block_within};

/// How many aligned blocks so many runs have, and so how many cells a scan of them needs: fewer than two for each run.
pub fn blocks(runs: u64) -> u64
    requires { runs ≤ 2 ^ 32 }
    ensures { result ≡ blocks runs }
{
    cells_before(33, runs)
}

// How many they have below a level.
pub(crate) fn cells_before(level: u32, runs: u64) -> u64
    requires { runs ≤ 2 ^ 32 }
    ensures is { result ≡ before_level level runs }
    ensures small { result ≤ 2 * runs }
{
    if level == 0 {
        0
    } else {
        runs + cells_before(level - 1, runs / 2)
    }
}

// Where a block begins.
pub(crate) fn edge(level: u32, k: u64) -> u64
    requires { edge level k ≤ 2 ^ 32 }
    ensures { result ≡ edge level k }
{
    if level == 0 {
        k
    } else {
        edge(level - 1, 2 * k)
    }
}

// The first run of a block, and the one after its last.
pub(crate) fn bounds(level: u32, k: u64) -> (u64, u64)
    requires { edge level (k + 1) ≤ 2 ^ 32 }
    ensures { result ≡ (edge level k, edge level (k + 1)) }
{
    (edge(level, k), edge(level, k + 1))
}

// The halves of a block above level 0.
pub(crate) fn halves(level: u32, k: u64, runs: u64) -> (u64, u64)
    requires some { 0 < level }
    requires within { (edge level (k + 1) ≤ runs) × (runs ≤ 2 ^ 32) }
    ensures is { result ≡ (2 * k, 2 * k + 1) }
    ensures first { edge (level - 1) (2 * k + 1) ≤ runs }
    ensures second { edge (level - 1) (2 * k + 1 + 1) ≤ runs }
{
    (2 * k, 2 * k + 1)
}

/// A level, and the number of a block in it.
#[derive(Clone, Copy, Drop)]
pub(crate) struct At {
    pub(crate) level: u32,
    pub(crate) k: u64,
}

// The longest block that begins at a and ends at most at b.
pub(crate) fn block_at(a: u64, b: u64) -> At
    requires { (a < b) × (b ≤ 2 ^ 32) }
    ensures is { (room : ℕ) → b ≤ room → record { level = result.level; k = result.k } ≡ block_within room a b }
    ensures begin { edge result.level result.k ≡ a }
    ensures within { edge result.level (result.k + 1) ≤ b }
    ensures low { result.level < 33 }
{
    if a % 2 == 0 && a + 2 <= b {
        let at = block_at(a / 2, b / 2);
        At {
            level: at.level + 1,
            k: at.k,
        }
    } else {
        At { level: 0, k: a }
    }
}

// Where the block ends.
pub(crate) fn edge_after(at: At) -> u64
    requires { edge at.level (at.k + 1) ≤ 2 ^ 32 }
    ensures { result ≡ edge at.level (at.k + 1) }
{
    edge(at.level, at.k + 1)
}
