//! The walk over the turns of a trace, for a list of levels.
ghost use Rattle.std.specs.Prelude.{◌≡◌, ◌-◌, ◌<◌, ◌≤◌, ℕ, All, length, slice_index};
ghost use Rattle.lock_select.specs.Texts.{keep_limit, weight_limit};
ghost use Rattle.lock_select.specs.Costs.{climb_cost};
ghost use Rattle.lock_select.specs.Nodes.{level_limit};
ghost use Rattle.lock_select.specs.Walks.{IsHandedOn};

/// How many levels a lock may have.
pub(crate) const LEVEL_LIMIT: usize = 5;

/// What it costs to climb to each level.
pub(crate) fn climb_costs(weights: &[u64], depths: &[u32]) -> [u64; LEVEL_LIMIT]
    requires levels { length depths.now ≤ level_limit }
    requires within { All (λ depth. depth < length weights.now) depths.now }
    requires few { All (λ weight. weight ≤ weight_limit) weights.now }
    ensures costs { (level : ℕ) → level < length depths.now → slice_index result level ≡ climb_cost weights.now depths.now level }
    ensures few { (level : ℕ) → slice_index result level ≤ 5000000 }
{
    let mut costs = [0; LEVEL_LIMIT];
    let mut cost = 0;
    for (level, depth) in depths.iter().enumerate() {
        cost += weights[*depth as usize];
        costs[level] = cost;
    }
    costs
}

/// What the first turn costs, which climbs to the top.
pub(crate) fn first_cost(costs: &[u64; LEVEL_LIMIT], depths: &[u32]) -> u64
    requires some { 0 < length depths.now }
    requires levels { length depths.now ≤ level_limit }
    ensures { result ≡ slice_index costs.now (length depths.now - 1) }
{
    costs[depths.len() - 1]
}

/// Hands a turn on to a next one whose PU is under one object with its own down to a common depth: at the lowest level at such a depth
/// whose run is below the keep, or at the top. Gives that level.
pub(crate) fn hand_on(
    runs: &mut [u32; LEVEL_LIMIT],
    depths: &[u32],
    keep: u32,
    common: u32,
) -> usize
    requires some { 0 < length depths.now }
    requires levels { length depths.now ≤ level_limit }
    requires keep { keep ≤ keep_limit }
    ensures { IsHandedOn depths.now keep common runs.old runs.new result }
{
    let top = depths.len() - 1;
    for level in 0..top {
        if depths[level] <= common && runs[level] < keep {
            runs[level] += 1;
            return level;
        }
        runs[level] = 0;
    }
    top
}
