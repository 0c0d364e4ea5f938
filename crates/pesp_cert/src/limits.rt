//! The limits of a certificate's parts.

ghost use Rattle.std.specs.Prelude.{◌≡◌, nat_le, map};
ghost use Rattle.pesp_cert_lines.specs.Rows.{is_name, rows_are_named};
ghost use Rattle.pesp_cert_lines.specs.Pairs.{all_within, follows, is_pair_within, rise_from};
ghost use Rattle.pesp_truth.specs.Trees.{are_trees, line_of};
ghost use Rattle.pesp_cert.specs.Limits.{is_period, has_costs, is_time, are_times, is_cycle, total_rows, are_cycles, are_pairs, line_keeps_limits, is_branch, count_pairs, total_pairs, are_lines, has_line, has_lines, keeps_limits};
ghost use Rattle.std.specs.List.{list_all};

use pesp_problem::{
    MOST_CYCLES, MOST_EVENTS, MOST_LABEL, MOST_LINES, MOST_MULTIPLIER, MOST_OFFSET, MOST_PAIRS,
    MOST_PERIOD, MOST_ROWS, MOST_SIGNED_ROWS, MOST_SLACK, MOST_TIME, Pair, SignedRow, Walk,
};
use pesp_truth::{Answer, TreeLine};

/// Costs below this number have at most 18 digits.
const COSTS: u64 = 1_000_000_000_000_000_000;

fn has_costs(answer: Answer) -> bool
    ensures { result ≡ has_costs answer }
{
    match answer {
        Answer::Optimal(cost) => cost < COSTS,
        Answer::Infeasible => true,
        Answer::Bounded { least, cost: None } => least < COSTS,
        Answer::Bounded {
            least,
            cost: Some(cost),
        } => least < COSTS && cost < COSTS,
    }
}

fn is_period(period: u32) -> bool
    ensures { result ≡ is_period period }
{
    1 <= period && period <= MOST_PERIOD
}

fn is_time(time: &(i64, u32)) -> bool
    ensures { result ≡ is_time time.now }
{
    time.0.unsigned_abs() <= MOST_LABEL && time.1 <= MOST_TIME
}

fn each_is_time(times: &[(i64, u32)]) -> bool
    ensures { result ≡ list_all is_time times.now }
{
    times.iter().all(|time| is_time(time))
}

fn are_times(times: &[(i64, u32)]) -> bool
    ensures { result ≡ are_times times.now }
{
    times.len() <= MOST_EVENTS && each_is_time(times)
}

/// Whether a row or a cycle may have this number.
fn is_name(number: u32) -> bool
    ensures { result ≡ is_name number }
{
    1 <= number && number as usize <= MOST_ROWS
}

fn each_is_named(rows: &[SignedRow]) -> bool
    ensures { result ≡ rows_are_named rows.now }
{
    rows.iter().all(|row| is_name(row.row))
}

fn is_cycle(walk: &Walk) -> bool
    ensures { result ≡ is_cycle walk.now }
{
    1 <= walk.rows().len() && each_is_named(walk.rows())
}

fn each_is_cycle(cycles: &[Walk]) -> bool
    ensures { result ≡ list_all is_cycle cycles.now }
{
    cycles.iter().all(|walk| is_cycle(walk))
}

/// Whether the table has at most 10,000,000 signed rows.
fn has_few_rows(cycles: &[Walk]) -> bool
    ensures { result ≡ nat_le (total_rows cycles.now) MOST_SIGNED_ROWS }
{
    let mut left = MOST_SIGNED_ROWS;
    for walk in cycles {
        match left.checked_sub(walk.rows().len()) {
            None => return false,
            Some(others) => left = others,
        }
    }
    true
}

pub(crate) fn are_cycles(cycles: &[Walk]) -> bool
    ensures { result ≡ are_cycles cycles.now }
{
    cycles.len() <= MOST_CYCLES && has_few_rows(cycles) && each_is_cycle(cycles)
}

/// Whether the pair has a cycle number of at least `least` and a multiplier other than 0.
fn follows(least: u64, pair: &Pair) -> bool
    ensures { result ≡ follows least pair.now }
{
    least <= u64::from(pair.cycle) && pair.mult != 0
}

/// Whether the cycle numbers rise and no multiplier is 0.
fn rise(pairs: &[Pair]) -> bool
    ensures { result ≡ rise_from 0 pairs.now }
{
    let mut least = 0u64;
    for pair in pairs {
        if !follows(least, pair) {
            return false;
        }
        least = u64::from(pair.cycle) + 1;
    }
    true
}

fn is_pair_within(pair: &Pair) -> bool
    ensures { result ≡ is_pair_within pair.now }
{
    1 <= pair.cycle
        && pair.cycle as usize <= MOST_CYCLES
        && pair.mult.unsigned_abs() <= MOST_MULTIPLIER
}

fn each_is_within(pairs: &[Pair]) -> bool
    ensures { result ≡ all_within pairs.now }
{
    pairs.iter().all(|pair| is_pair_within(pair))
}

pub(crate) fn are_pairs(pairs: &[Pair]) -> bool
    ensures { result ≡ are_pairs pairs.now }
{
    rise(pairs) && each_is_within(pairs)
}

fn is_line(line: &TreeLine) -> bool
    ensures { result ≡ line_keeps_limits line.now }
{
    match line {
        TreeLine::Slack { row, k } => is_name(*row) && *k <= MOST_SLACK,
        TreeLine::Offset { cycle, k } => is_name(*cycle) && k.unsigned_abs() <= MOST_OFFSET,
        TreeLine::Bound(pairs) | TreeLine::Nothing(pairs) => are_pairs(pairs.as_slice()),
        TreeLine::Gap(cycle) => is_name(*cycle),
        TreeLine::Propagated => true,
    }
}

fn pairs_in(line: &TreeLine) -> usize
    ensures { result ≡ count_pairs line.now }
{
    match line {
        TreeLine::Bound(pairs) | TreeLine::Nothing(pairs) => pairs.as_slice().len(),
        TreeLine::Slack { .. }
        | TreeLine::Offset { .. }
        | TreeLine::Gap(_)
        | TreeLine::Propagated => 0,
    }
}

/// Whether the tree has at most 20,000,000 pairs.
fn has_few_pairs(lines: &[TreeLine]) -> bool
    ensures { result ≡ nat_le (total_pairs lines.now) MOST_PAIRS }
{
    let mut left = MOST_PAIRS;
    for line in lines {
        match left.checked_sub(pairs_in(line)) {
            None => return false,
            Some(others) => left = others,
        }
    }
    true
}

fn is_branch(line: &TreeLine) -> bool
    ensures { result ≡ is_branch line.now }
{
    matches!(line, TreeLine::Slack { .. } | TreeLine::Offset { .. })
}

/// Whether the lines are one tree in preorder.
fn are_one_tree(lines: &[TreeLine]) -> bool
    ensures { result ≡ are_trees 1 (map line_of lines.now) }
{
    let mut needs = 1usize;
    for line in lines {
        if needs == 0 {
            return false;
        }
        if is_branch(line) {
            needs += 1;
        } else {
            needs -= 1;
        }
    }
    needs == 0
}

fn each_is_line(lines: &[TreeLine]) -> bool
    ensures { result ≡ list_all line_keeps_limits lines.now }
{
    lines.iter().all(|line| is_line(line))
}

pub(crate) fn are_lines(lines: &[TreeLine]) -> bool
    ensures { result ≡ are_lines lines.now }
{
    lines.len() <= MOST_LINES && has_few_pairs(lines) && each_is_line(lines) && are_one_tree(lines)
}

/// Whether certificates of this version have such a line.
fn has_line(version: u32, line: &TreeLine) -> bool
    ensures { result ≡ has_line version line.now }
{
    match line {
        TreeLine::Propagated => version >= 2,
        _ => true,
    }
}

fn each_is_had(version: u32, lines: &[TreeLine]) -> bool
    ensures { result ≡ list_all (has_line version) lines.now }
{
    lines.iter().all(|line| has_line(version, line))
}

/// Whether there is such a version, and it has all these lines.
fn has_lines(version: u32, lines: &[TreeLine]) -> bool
    ensures { result ≡ has_lines version lines.now }
{
    1 <= version && version <= 2 && each_is_had(version, lines)
}

/// Whether these parts may be a certificate's.
#[tactic(auto, unfolding(crate::specs::Limits::keeps_limits))]
pub(crate) fn keep_limits(
    version: u32,
    period: u32,
    answer: Answer,
    times: &[(i64, u32)],
    cycles: &[Walk],
    tree: &[TreeLine],
) -> bool
    ensures { result ≡ keeps_limits (record {
      version = version;
      period = period;
      answer = answer;
      times = times.now;
      cycles = cycles.now;
      tree = tree.now;
    }) }
{
    is_period(period)
        && has_costs(answer)
        && are_times(times)
        && are_cycles(cycles)
        && are_lines(tree)
        && has_lines(version, tree)
}
