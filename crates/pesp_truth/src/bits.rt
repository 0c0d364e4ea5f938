//! Many small sets as the bits of 64-bit words, each from a word's first bit on.

ghost use Rattle.std.specs.Prelude.{◌≡◌, ◌≢◌, ℕ, ◌+◌, ◌*◌, ◌<◌, ◌≤◌, length, false};
ghost use Rattle.pesp_problem.specs.declared.limits.TheConstants.{MOST_EVENTS, MOST_PERIOD};
ghost use Rattle.pesp_problem.specs.Words.{IsLess};
ghost use Rattle.pesp_truth.specs.Sets.{is_set, padded_period};

/// How many words the sets of so many events take.
pub fn words_for(period: usize, events: usize) -> usize
    requires period { period ≤ MOST_PERIOD }
    requires events { events ≤ MOST_EVENTS }
    ensures { events * padded_period period ≡ 64 * result }
{
    events * period.div_ceil(64)
}

/// Where the bit of an event's difference is.
fn place_of(period: usize, event: usize, difference: usize) -> usize
    requires period { period ≤ MOST_PERIOD }
    requires event { event ≤ MOST_EVENTS }
    requires difference { difference < period }
    ensures { result ≡ event * padded_period period + difference }
{
    event * (period.div_ceil(64) * 64) + difference
}

/// Whether an event has a difference.
pub fn has(words: &[u64], period: usize, event: usize, difference: usize) -> bool
    requires period { period ≤ MOST_PERIOD }
    requires event { event ≤ MOST_EVENTS }
    requires difference { difference < period }
    requires long { event * padded_period period + padded_period period ≤ 64 * length words.now }
    ensures { result ≡ is_set words.now (event * padded_period period + difference) }
{
    let place = place_of(period, event, difference);
    (words[place / 64] >> (place % 64)) & 1 == 1
}

/// Takes a difference from an event, and says whether the event had it.
pub fn remove(words: &mut [u64], period: usize, event: usize, difference: usize) -> bool
    requires period { period ≤ MOST_PERIOD }
    requires event { event ≤ MOST_EVENTS }
    requires difference { difference < period }
    requires long { event * padded_period period + padded_period period ≤ 64 * length words.old }
    ensures gone { is_set words.new (event * padded_period period + difference) ≡ false }
    ensures others { (other : ℕ) → other ≢ event * padded_period period + difference
        → is_set words.new other ≡ is_set words.old other }
    ensures less { IsLess words.old words.new result }
{
    let place = place_of(period, event, difference);
    let word = words[place / 64];
    let bit: u64 = 1 << (place % 64);
    let left = word & !bit;
    words[place / 64] = left;
    left != word
}
