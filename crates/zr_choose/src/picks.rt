//! The runs that the three policies name.
//!
//! First fit takes the lowest run and keeps addresses close. Best fit takes the shortest and leaves long runs whole.
//! The dynamic policy is first fit while there is plenty, and turns to best fit where the metaslab is nearly full or
//! cut up, as OpenZFS does.
ghost use Rattle.std.specs.Prelude.{◌≡◌, ℕ, ◌<◌, ◌≤◌, ◌-◌, ◌^◌, ◌↔◌, IsTrue, true, nat_le, ◌&&◌, ◌==◌, position};
ghost use Rattle.zr_base.specs.declared.space.Policy.TheVariants.{First, Best, Dynamic};
ghost use Rattle.zr_base.specs.Extents.{longest_len, unit_count};
ghost use Rattle.zr_rules.specs.Choices.{AreRuns, IsPick, first_fit, best_fit, shortest_fit, is_scarce};

use zr_base::Extent;

/// The lowest run of at least `want` units.
pub fn pick_first(want: u64, runs: &[Extent]) -> Option<usize>
    requires some { 0 < want }
    requires runs { AreRuns runs.now }
    ensures { IsPick First want runs.now result }
{
    first_index(want, runs)
}

/// The shortest run of at least `want` units, the lowest among equals. It goes over the runs twice.
pub fn pick_best(want: u64, runs: &[Extent]) -> Option<usize>
    requires some { 0 < want }
    requires runs { AreRuns runs.now }
    ensures { IsPick Best want runs.now result }
{
    index_of_len(want, shortest_len(want, runs), runs)
}

/// As `pick_best` where the longest run is below `short` units or less than `percent` of a metaslab is free, or else
/// as `pick_first`.
pub fn pick_dynamic(short: u64, percent: u64, want: u64, runs: &[Extent]) -> Option<usize>
    requires some { 0 < want }
    requires runs { AreRuns runs.now }
    ensures { IsPick (Dynamic short percent) want runs.now result }
{
    if is_scarce_here(short, percent, runs) {
        pick_best(want, runs)
    } else {
        pick_first(want, runs)
    }
}

fn first_index(want: u64, runs: &[Extent]) -> Option<usize>
    ensures { result ≡ first_fit want runs.now }
{
    runs.iter().position(|run| run.len >= want)
}

// The lowest run that has `want` units and is `len` units long.
fn index_of_len(want: u64, len: u64, runs: &[Extent]) -> Option<usize>
    ensures { result ≡ position (λ e. nat_le want e.len && (e.len == len)) runs.now }
{
    runs.iter()
        .position(|run| run.len >= want && run.len == len)
}

// The length of the shortest run that has `want` units, the greatest number where there is none.
fn shortest_len(want: u64, runs: &[Extent]) -> u64
    ensures { result ≡ shortest_fit (2 ^ 64 - 1) want runs.now }
{
    let mut shortest = u64::MAX;
    for run in runs {
        if run.len < want {
            continue;
        }
        shortest = shortest.min(run.len);
    }
    shortest
}

fn is_scarce_here(short: u64, percent: u64, runs: &[Extent]) -> bool
    requires { AreRuns runs.now }
    ensures { IsTrue result ↔ (is_scarce short percent runs.now ≡ true) }
{
    if longest_run(runs) < short {
        return true;
    }
    100 * (units_of(runs) as u128) < (percent as u128) * 512
}

fn longest_run(runs: &[Extent]) -> u64
    ensures { result ≡ longest_len runs.now }
{
    let mut longest = 0;
    for run in runs {
        longest = longest.max(run.len);
    }
    longest
}

fn units_of(runs: &[Extent]) -> u64
    requires { AreRuns runs.now }
    ensures { result ≡ unit_count runs.now }
{
    let mut units = 0;
    for run in runs {
        units += run.len;
    }
    units
}
